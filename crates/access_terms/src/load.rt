//! Loads.
ghost use Rattle.std.specs.Prelude.{◌^◌, ◌<◌, IfOk, OnOk};
ghost use Rattle.step_terms.specs.Made.{Grows};
ghost use Rattle.thread_terms.specs.Standing.{AreRegisters};
ghost use Rattle.thread_terms.specs.Steps.{IsPlainStep};

use crate::bits::constant_bit;
use crate::right::Right;
use crate::rights::rights;
use bv_rewrite::rewrite::Rewrite;
use bv_terms::node::TermId;
use bv_terms::pool::TermPool;
use elf_image::image::Image;
use odr_list::list::List;
use odr_list::memory::Memory;
use odr_log::log::Pos;
use rv_model::values::load_size;
use rv32_decode::instr::{Instr, LoadOp};
use std::alloc::Global;
use step_terms::address::offset_by;
use step_terms::memory::loaded;
use thread_terms::access::{Access, Stepped};
use thread_terms::compute::put;
use thread_terms::registers::read;
use thread_terms::variables::bytes;

/// A load: its bytes are variables, and its register gets the word that they make.
pub fn load<R: Rewrite>(
    alloc: Global,
    pool: &mut TermPool<'_>,
    book: &R,
    image: &Image,
    pos: Pos,
    registers: &mut [TermId; 32],
    op: LoadOp,
    rd: u8,
    rs1: u8,
    offset: i32,
) -> Result<Stepped, Memory>
    requires registers { AreRegisters pool.old registers.old }
    requires thread { pos.thread < 8 }
    requires step { pos.step < 2 ^ 18 }
    requires rd { rd < 32 }
    requires rs1 { rs1 < 32 }
    ensures step { IfOk result (IsPlainStep image.now pos (Instr.Load op rd rs1 offset) pool.old pool.new registers.old registers.new) }
    ensures registers { OnOk result (AreRegisters pool.new registers.new) }
    ensures grows { Grows pool.old pool.new }
{
    let base = read(registers, rs1);
    let address = offset_by(pool, book, base, offset)?;
    let constraint = rights(pool, book, image, Right::Read, address, load_size(op))?;
    let reads = bytes(alloc, pool, pos, load_size(op))?;
    let value = loaded(pool, book, op, reads.as_slice())?;
    let guard = constant_bit(pool, false)?;
    put(pool, registers, rd, value);
    let access = Access {
        pos,
        address,
        guard,
        reads,
        writes: List::new(alloc),
        link: None,
    };
    Ok(Stepped {
        constraint,
        access: Some(access),
    })
}
