//! The variables of what is given: one for each byte that a step may read, and one for the outcome of its store-conditional.
ghost use Rattle.std.specs.Prelude.{◌≡◌, ◌^◌, ◌<◌, ◌≤◌, IfOk, length};
ghost use Rattle.bv_terms.specs.Fitting.{IsWidth};
ghost use Rattle.step_terms.specs.Made.{Grows};
ghost use Rattle.thread_terms.specs.Variables.{AreVariables, IsVariable, byte_number, step_number};

use bv_terms::node::{Node, TermId};
use bv_terms::pool::TermPool;
use odr_list::list::List;
use odr_list::memory::Memory;
use odr_log::log::Pos;
use std::alloc::Global;

// The number of a step of one of eight threads.
fn step_number(pos: Pos) -> u32
    requires thread { pos.thread < 8 }
    requires step { pos.step < 2 ^ 18 }
    ensures number { result ≡ step_number pos.thread pos.step }
    ensures below { result < 2 ^ 21 }
{
    u32::from(pos.thread) * 0x4_0000 + pos.step
}

// A variable of a pool.
fn variable(pool: &mut TermPool<'_>, width: u8, number: u32) -> Result<TermId, Memory>
    requires { IsWidth width }
    ensures variable { IfOk result (λ id. IsVariable pool.new width number id.number) }
    ensures grows { Grows pool.old pool.new }
{
    pool.add(Node::Var { width, number })
}

/// The variable of a byte that a step may read.
pub fn byte(pool: &mut TermPool<'_>, pos: Pos, index: u8) -> Result<TermId, Memory>
    requires thread { pos.thread < 8 }
    requires step { pos.step < 2 ^ 18 }
    ensures variable { IfOk result (λ id. IsVariable pool.new 8 (byte_number pos.thread pos.step index) id.number) }
    ensures grows { Grows pool.old pool.new }
{
    variable(pool, 8, step_number(pos) * 0x100 + u32::from(index))
}

/// The variable of the outcome of a step that is a store-conditional with a link.
pub fn outcome(pool: &mut TermPool<'_>, pos: Pos) -> Result<TermId, Memory>
    requires thread { pos.thread < 8 }
    requires step { pos.step < 2 ^ 18 }
    ensures variable { IfOk result (λ id. IsVariable pool.new 1 (step_number pos.thread pos.step) id.number) }
    ensures grows { Grows pool.old pool.new }
{
    variable(pool, 1, step_number(pos))
}

/// Variables for the bytes that a step reads, one for each.
pub fn bytes(
    alloc: Global,
    pool: &mut TermPool<'_>,
    pos: Pos,
    count: u32,
) -> Result<List<TermId>, Memory>
    requires thread { pos.thread < 8 }
    requires step { pos.step < 2 ^ 18 }
    requires few { count ≤ 2 ^ 8 }
    ensures count { IfOk result (λ ids. length ids ≡ count) }
    ensures variables { IfOk result (AreVariables pool.new pos) }
    ensures grows { Grows pool.old pool.new }
{
    let mut variables = List::new(alloc);
    for index in 0..count {
        let variable = byte(pool, pos, index as u8)?;
        variables.push(variable)?;
    }
    Ok(variables)
}
