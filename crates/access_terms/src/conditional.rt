//! Store-conditional.
ghost use Rattle.std.specs.Prelude.{◌^◌, ◌<◌, ℕ, IfOk, OnOk};
ghost use Rattle.step_terms.specs.Made.{Grows};
ghost use Rattle.thread_terms.specs.Standing.{AreRegisters};
ghost use Rattle.thread_terms.specs.Steps.{IsStep};
ghost use Rattle.access_terms.specs.Won.{IsOutcome};
ghost use Rattle.rv_model.specs.declared.state.Note.TheVariants as note;

use crate::bits::constant_bit;
use crate::rights::usable;
use crate::split::low_bytes;
use bv_rewrite::rewrite::Rewrite;
use bv_terms::node::TermId;
use bv_terms::pool::TermPool;
use elf_image::image::Image;
use odr_list::list::List;
use odr_list::memory::Memory;
use odr_log::log::Pos;
use rv32_decode::instr::Instr;
use std::alloc::Global;
use step_terms::atomic::failure;
use thread_terms::access::{Access, Stepped};
use thread_terms::compute::put;
use thread_terms::registers::read;
use thread_terms::variables::outcome;

// Whether a store-conditional succeeds: a variable where it looks back to a load-reserved, else it fails.
fn won(pool: &mut TermPool<'_>, pos: Pos, link: Option<u32>) -> Result<TermId, Memory>
    requires thread { pos.thread < 8 }
    requires step { pos.step < 2 ^ 18 }
    ensures outcome { IfOk result (λ id. IsOutcome pool.new pos link id.number) }
    ensures grows { Grows pool.old pool.new }
{
    match link {
        Some(_) => outcome(pool, pos),
        None => constant_bit(pool, false),
    }
}

/// A store-conditional: the bytes of a register are written where it succeeds, and `rd` tells whether it failed.
pub fn conditional<R: Rewrite>(
    alloc: Global,
    pool: &mut TermPool<'_>,
    book: &R,
    image: &Image,
    pos: Pos,
    link: Option<u32>,
    registers: &mut [TermId; 32],
    rd: u8,
    rs1: u8,
    rs2: u8,
    aq: bool,
    rl: bool,
) -> Result<Stepped, Memory>
    requires registers { AreRegisters pool.old registers.old }
    requires thread { pos.thread < 8 }
    requires step { pos.step < 2 ^ 18 }
    requires rd { rd < 32 }
    requires rs1 { rs1 < 32 }
    requires rs2 { rs2 < 32 }
    ensures step { IfOk result (λ stepped. (pc : ℕ)
        → IsStep image.now pos pc (Instr.StoreConditional rd rs1 rs2 aq rl) note.Nothing link pool.old pool.new registers.old registers.new stepped) }
    ensures registers { OnOk result (AreRegisters pool.new registers.new) }
    ensures grows { Grows pool.old pool.new }
{
    let address = read(registers, rs1);
    let word = read(registers, rs2);
    let constraint = usable(pool, book, image, address)?;
    let guard = won(pool, pos, link)?;
    let writes = low_bytes(alloc, pool, word, 4)?;
    let value = failure(pool, guard)?;
    put(pool, registers, rd, value);
    let access = Access {
        pos,
        address,
        guard,
        reads: List::new(alloc),
        writes,
        link,
    };
    Ok(Stepped {
        constraint,
        access: Some(access),
    })
}
