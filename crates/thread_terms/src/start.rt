//! The registers of a thread before its first step.
ghost use Rattle.std.specs.Prelude.{◌≡◌, ◌<◌, ℕ, [], ◌∷◌, IfOk, replicate};
ghost use Rattle.bv_terms.specs.Values.{Assignment, value_at};
ghost use Rattle.rv_model.specs.Thread.{first_local, spawned_local, stack_top};
ghost use Rattle.step_terms.specs.Made.{Grows, IsTerm};
ghost use Rattle.thread_terms.specs.Standing.{AreRegisters, BeginsAs, SpawnedAs};

use crate::registers::write;
use bv_terms::node::TermId;
use bv_terms::pool::TermPool;
use odr_list::memory::Memory;
use step_terms::make::word;

// The address just above a thread's stack.
fn stack_top(thread: u8) -> u32
    ensures { result ≡ stack_top thread }
{
    0x7000_0000 + u32::from(thread) * 0x1_0000 + 16384
}

/// The registers of thread 0: sp at its stack's top, all else 0.
pub fn first(pool: &mut TermPool<'_>) -> Result<[TermId; 32], Memory>
    ensures begins { IfOk result (BeginsAs pool.new) }
    ensures grows { Grows pool.old pool.new }
{
    let zero = word(pool, 0)?;
    let top = word(pool, stack_top(0))?;
    let mut registers = [zero; 32];
    write(&mut registers, 2, top);
    Ok(registers)
}

/// The registers of a spawned thread: sp at its stack's top, gp its spawner's, a0 its argument, all else 0.
pub fn spawned(
    pool: &mut TermPool<'_>,
    thread: u8,
    gp: TermId,
    argument: TermId,
) -> Result<[TermId; 32], Memory>
    requires gp { IsTerm pool.old 32 gp.number }
    requires argument { IsTerm pool.old 32 argument.number }
    ensures begins { IfOk result (SpawnedAs pool.old pool.new thread gp.number argument.number) }
    ensures grows { Grows pool.old pool.new }
{
    let zero = word(pool, 0)?;
    let top = word(pool, stack_top(thread))?;
    let mut registers = [zero; 32];
    write(&mut registers, 2, top);
    write(&mut registers, 3, gp);
    write(&mut registers, 10, argument);
    Ok(registers)
}
