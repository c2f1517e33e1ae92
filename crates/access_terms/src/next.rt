//! One step of a thread that is no call.
ghost use Rattle.std.specs.Prelude.{◌≡◌, ◌≢◌, ◌^◌, ◌<◌, true, IfOk, OnOk, is_some};
ghost use Rattle.rv32_decode.specs.Valid.{IsValid};
ghost use Rattle.rv_model.specs.Walk.{goes_to, transfer_of};
ghost use Rattle.step_terms.specs.Made.{Grows};
ghost use Rattle.thread_terms.specs.Standing.{AreRegisters};
ghost use Rattle.thread_terms.specs.Steps.{IsStep};

use crate::alone::alone;
use crate::amo::amo;
use crate::conditional::conditional;
use crate::load::load;
use crate::reserve::reserve;
use crate::store::store;
use bv_rewrite::rewrite::Rewrite;
use bv_terms::node::TermId;
use bv_terms::pool::TermPool;
use elf_image::image::Image;
use odr_list::memory::Memory;
use odr_log::log::Pos;
use rv_model::state::Note;
use rv_model::walk::Place;
use rv32_decode::instr::Instr;
use std::alloc::Global;
use thread_terms::access::Stepped;

/// A step that is no call: what it adds to the terms, and the terms of the registers after it. `link` is the place of the
/// load-reserved that a store-conditional looks back to.
pub fn next<R: Rewrite>(
    alloc: Global,
    pool: &mut TermPool<'_>,
    book: &R,
    image: &Image,
    pos: Pos,
    place: &Place,
    shown: &Note,
    link: Option<u32>,
    registers: &mut [TermId; 32],
) -> Result<Stepped, Memory>
    requires registers { AreRegisters pool.old registers.old }
    requires thread { pos.thread < 8 }
    requires step { pos.step < 2 ^ 18 }
    requires valid { IsValid place.now.instr }
    requires no_call { place.now.instr ≢ Instr.Ecall }
    requires leads { is_some (goes_to place.now.pc (transfer_of place.now.pc place.now.instr) shown.now) ≡ true }
    ensures step { IfOk result (IsStep image.now pos place.now.pc place.now.instr shown.now link pool.old pool.new registers.old registers.new) }
    ensures registers { OnOk result (AreRegisters pool.new registers.new) }
    ensures grows { Grows pool.old pool.new }
{
    match place.instr {
        Instr::Load {
            op,
            rd,
            rs1,
            offset,
        } => {
            load(
                alloc, pool, book, image, pos, registers, op, rd, rs1, offset,
            )
        }
        Instr::Store {
            op,
            rs1,
            rs2,
            offset,
        } => {
            store(
                alloc, pool, book, image, pos, registers, op, rs1, rs2, offset,
            )
        }
        Instr::LoadReserved { rd, rs1, aq, rl } => {
            reserve(alloc, pool, book, image, pos, registers, rd, rs1, aq, rl)
        }
        Instr::StoreConditional {
            rd,
            rs1,
            rs2,
            aq,
            rl,
        } => {
            conditional(
                alloc, pool, book, image, pos, link, registers, rd, rs1, rs2, aq, rl,
            )
        }
        Instr::Amo {
            op,
            rd,
            rs1,
            rs2,
            aq,
            rl,
        } => {
            amo(
                alloc, pool, book, image, pos, registers, op, rd, rs1, rs2, aq, rl,
            )
        }
        Instr::Ecall => unreachable!(),
        _ => alone(pool, book, place, shown, registers),
    }
}
