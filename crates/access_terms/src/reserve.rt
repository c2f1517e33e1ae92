//! Load-reserved.
ghost use Rattle.std.specs.Prelude.{◌^◌, ◌<◌, IfOk, OnOk};
ghost use Rattle.step_terms.specs.Made.{Grows};
ghost use Rattle.thread_terms.specs.Standing.{AreRegisters};
ghost use Rattle.thread_terms.specs.Steps.{IsPlainStep};

use crate::bits::constant_bit;
use crate::rights::usable;
use bv_rewrite::rewrite::Rewrite;
use bv_terms::node::TermId;
use bv_terms::pool::TermPool;
use elf_image::image::Image;
use odr_list::list::List;
use odr_list::memory::Memory;
use odr_log::log::Pos;
use rv32_decode::instr::Instr;
use std::alloc::Global;
use step_terms::memory::word_of;
use thread_terms::access::{Access, Stepped};
use thread_terms::compute::put;
use thread_terms::registers::read;
use thread_terms::variables::bytes;

/// A load-reserved: its bytes are variables, and its register gets their word.
pub fn reserve<R: Rewrite>(
    alloc: Global,
    pool: &mut TermPool<'_>,
    book: &R,
    image: &Image,
    pos: Pos,
    registers: &mut [TermId; 32],
    rd: u8,
    rs1: u8,
    aq: bool,
    rl: bool,
) -> Result<Stepped, Memory>
    requires registers { AreRegisters pool.old registers.old }
    requires thread { pos.thread < 8 }
    requires step { pos.step < 2 ^ 18 }
    requires rd { rd < 32 }
    requires rs1 { rs1 < 32 }
    ensures step { IfOk result (IsPlainStep image.now pos (Instr.LoadReserved rd rs1 aq rl) pool.old pool.new registers.old registers.new) }
    ensures registers { OnOk result (AreRegisters pool.new registers.new) }
    ensures grows { Grows pool.old pool.new }
{
    let address = read(registers, rs1);
    let constraint = usable(pool, book, image, address)?;
    let reads = bytes(alloc, pool, pos, 4)?;
    let value = word_of(pool, book, reads.as_slice())?;
    let guard = constant_bit(pool, false)?;
    put(pool, registers, rd, value);
    let access = Access {
        pos,
        address,
        guard,
        reads,
        writes: List::new(alloc),
        link: None,
    };
    Ok(Stepped {
        constraint,
        access: Some(access),
    })
}
