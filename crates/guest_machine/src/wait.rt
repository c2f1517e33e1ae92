//! What a thread waits for.

ghost use Rattle.std.specs.Prelude.{◌≡◌};
ghost use Rattle.rv_model.specs.declared.hearing.Reach.{Reach};
ghost use Rattle.rv_model.specs.Calls.{asked_of};
ghost use Rattle.guest_calls.specs.Table.{kind_met};
ghost use Rattle.guest_machine.specs.Waiting.{held_up};

use guest_calls::call::CallArgs;
use guest_calls::call_state::CallState;

/// What a thread waits for.
#[derive(Clone, Copy, Debug, PartialEq, Eq)]
pub enum Wait {
    /// Nothing: it may go on unless the machine has halted.
    Ready,
    /// A mutex that another thread holds.
    Mutex(u32),
    /// The end of another thread.
    Thread(u32),
    /// It has ended, with this value.
    Ended(u32),
}

/// What a thread waits for whose next instruction makes this call.
pub fn held_up(calls: &CallState, tid: u8, args: CallArgs) -> Wait
    ensures { (reach : Reach) → result ≡ held_up calls.now tid (asked_of (kind_met args reach)) }
{
    let waits = calls.blocked(tid, args);
    match args.number {
        4 if waits => Wait::Thread(args.a0),
        5 if waits => Wait::Mutex(args.a0),
        _ => Wait::Ready,
    }
}
