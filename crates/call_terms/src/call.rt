//! A step that makes a guest call.
ghost use Rattle.std.specs.Prelude.{◌^◌, ◌<◌, ◌≤◌, IfOk, OnOk, length};
ghost use Rattle.rv_model.specs.CallsFit.{IsPossible};
ghost use Rattle.step_terms.specs.Made.{Grows, IsTerm};
ghost use Rattle.thread_terms.specs.Standing.{AreRegisters};
ghost use Rattle.call_terms.specs.Moved.{AreConstants, IsMoved};
ghost use Rattle.call_terms.specs.Records.{written_in};
ghost use Rattle.call_terms.specs.Steps.{IsCallStep};

use crate::answer::answer;
use crate::asks::asks;
use crate::buffer::buffer;
use crate::conjunction::conjunction;
use crate::record::{moves_bytes, read_in, writes_buffer, written_in};
use access_terms::bits::constant_bit;
use bv_rewrite::rewrite::Rewrite;
use bv_terms::node::TermId;
use bv_terms::pool::TermPool;
use elf_image::image::Image;
use odr_list::list::List;
use odr_list::memory::Memory;
use odr_log::log::{Call, Pos};
use std::alloc::Global;
use step_terms::make::constant;
use thread_terms::access::{Access, Stepped};
use thread_terms::compute::put;
use thread_terms::registers::read;
use thread_terms::variables::bytes;

// Recorded bytes as terms.
fn constants(
    alloc: Global,
    pool: &mut TermPool<'_>,
    recorded: &[u8],
) -> Result<List<TermId>, Memory>
    ensures constants { IfOk result (AreConstants pool.new recorded.now) }
    ensures grows { Grows pool.old pool.new }
{
    let mut terms = List::new(alloc);
    for index in 0..recorded.len() {
        let term = constant(pool, 8, u64::from(recorded[index]))?;
        terms.push(term)?;
    }
    Ok(terms)
}

// The access of a call that moves bytes.
fn moved(
    alloc: Global,
    pool: &mut TermPool<'_>,
    pos: Pos,
    address: TermId,
    reads: List<TermId>,
    call: &Call,
) -> Result<Option<Access>, Memory>
    requires address { IsTerm pool.old 32 address.number }
    ensures moved { IfOk result (λ access. IsMoved pool.new pos address.number reads call.now access) }
    ensures grows { Grows pool.old pool.new }
{
    if !moves_bytes(call) {
        return Ok(None);
    }
    let writes = constants(alloc, pool, written_in(call))?;
    let guard = constant_bit(pool, writes_buffer(call))?;
    Ok(Some(Access {
        pos,
        address,
        guard,
        reads,
        writes,
        link: None,
    }))
}

/// A guest call as it is recorded, where a join hands on the value of a term.
pub fn call<R: Rewrite>(
    alloc: Global,
    pool: &mut TermPool<'_>,
    book: &R,
    image: &Image,
    pos: Pos,
    registers: &mut [TermId; 32],
    joined: TermId,
    call: &Call,
) -> Result<Stepped, Memory>
    requires registers { AreRegisters pool.old registers.old }
    requires thread { pos.thread < 8 }
    requires step { pos.step < 2 ^ 18 }
    requires joined { IsTerm pool.old 32 joined.number }
    requires possible { IsPossible call.now }
    requires few { length (written_in call.now) ≤ 256 }
    ensures step { IfOk result (IsCallStep image.now pos call.now joined.number pool.old pool.new registers.old registers.new) }
    ensures registers { OnOk result (AreRegisters pool.new registers.new) }
    ensures grows { Grows pool.old pool.new }
{
    let asked = asks(pool, book, registers, call)?;
    let reads = bytes(alloc, pool, pos, read_in(call).len() as u32)?;
    let met = buffer(pool, book, image, pos, registers, reads.as_slice(), call)?;
    let constraint = conjunction(pool, book, asked, met)?;
    let a0 = read(registers, 10);
    let access = moved(alloc, pool, pos, a0, reads, call)?;
    let value = answer(pool, pos.thread, joined, call, a0)?;
    put(pool, registers, 10, value);
    Ok(Stepped { constraint, access })
}
