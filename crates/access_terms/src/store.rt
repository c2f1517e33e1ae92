//! Stores.
ghost use Rattle.std.specs.Prelude.{◌^◌, ◌<◌, IfOk};
ghost use Rattle.step_terms.specs.Made.{Grows};
ghost use Rattle.thread_terms.specs.Standing.{AreRegisters};
ghost use Rattle.thread_terms.specs.Steps.{IsPlainStep};

use crate::bits::constant_bit;
use crate::right::Right;
use crate::rights::rights;
use crate::split::low_bytes;
use bv_rewrite::rewrite::Rewrite;
use bv_terms::node::TermId;
use bv_terms::pool::TermPool;
use elf_image::image::Image;
use odr_list::list::List;
use odr_list::memory::Memory;
use odr_log::log::Pos;
use rv_model::values::store_size;
use rv32_decode::instr::{Instr, StoreOp};
use std::alloc::Global;
use step_terms::address::offset_by;
use thread_terms::access::{Access, Stepped};
use thread_terms::registers::read;

/// A store: its bytes are those of a register.
pub fn store<R: Rewrite>(
    alloc: Global,
    pool: &mut TermPool<'_>,
    book: &R,
    image: &Image,
    pos: Pos,
    registers: &[TermId; 32],
    op: StoreOp,
    rs1: u8,
    rs2: u8,
    offset: i32,
) -> Result<Stepped, Memory>
    requires registers { AreRegisters pool.old registers.now }
    requires rs1 { rs1 < 32 }
    requires rs2 { rs2 < 32 }
    ensures step { IfOk result (IsPlainStep image.now pos (Instr.Store op rs1 rs2 offset) pool.old pool.new registers.now registers.now) }
    ensures grows { Grows pool.old pool.new }
{
    let base = read(registers, rs1);
    let word = read(registers, rs2);
    let address = offset_by(pool, book, base, offset)?;
    let constraint = rights(pool, book, image, Right::Write, address, store_size(op))?;
    let writes = low_bytes(alloc, pool, word, store_size(op))?;
    let guard = constant_bit(pool, true)?;
    let access = Access {
        pos,
        address,
        guard,
        reads: List::new(alloc),
        writes,
        link: None,
    };
    Ok(Stepped {
        constraint,
        access: Some(access),
    })
}
