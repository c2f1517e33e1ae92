//! The thread that a spawn makes.
ghost use Rattle.std.specs.Prelude.{IfOk};
ghost use Rattle.path_exec.specs.Following.{IsChild};
ghost use Rattle.step_terms.specs.Made.{Grows};
ghost use Rattle.thread_terms.specs.Standing.{AreRegisters};

use crate::walker::Walker;
use bv_terms::pool::TermPool;
use odr_list::memory::Memory;
use odr_log::log::Call;
use rv_model::state::Note;
use thread_terms::registers::read;
use thread_terms::start::spawned;

/// A spawned thread before its first step.
#[derive(Clone, Copy, Debug)]
pub struct Child {
    pub thread: u8,
    pub walker: Walker,
}

/// The thread that a step spawns, if it does, where the spawner stands so before it.
pub fn made_child(
    pool: &mut TermPool<'_>,
    walker: &Walker,
    shown: &Note,
) -> Result<Option<Child>, Memory>
    requires registers { AreRegisters pool.old walker.now.registers }
    ensures child { IfOk result (IsChild pool.old pool.new walker.now shown.now) }
    ensures grows { Grows pool.old pool.new }
{
    let Note::Called(
        Call::Spawn {
            child: Some(thread),
            ..
        },
    ) = shown
    else {
        return Ok(None);
    };
    let gp = read(&walker.registers, 3);
    let argument = read(&walker.registers, 11);
    let registers = spawned(pool, *thread, gp, argument)?;
    Ok(Some(Child {
        thread: *thread,
        walker: Walker {
            registers,
            link: None,
        },
    }))
}
