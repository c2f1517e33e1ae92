//! What a step that went on leaves of the threads and of the halt.

ghost use Rattle.std.specs.Prelude.{◌≡◌, ◌<◌, ◌++◌, length, map, slice_set, option_to_list, IsTrue, is_some};
ghost use Rattle.std.specs.Bool.{OnTrue};
ghost use Rattle.rv32_decode.specs.Valid.{IsValid};
ghost use Rattle.rv_model.specs.Instruction.{conditional_of, wins, reserving};
ghost use Rattle.rv_model.specs.Step.{child_of, halt_then};
ghost use Rattle.guest_machine.specs.Notes.{note_of};
ghost use Rattle.guest_machine.specs.Spans.{touches_span, losing_by};

use crate::note::Note;
use crate::threads::Threads;
use guest_calls::note::CallNote;
use rv_model::hearing::Access;
use rv_model::state::{Halt, Local, Thread};
use rv32_decode::instr::Instr;

/// Whether a store-conditional wins: the thread has reserved its address. False for another instruction.
#[tactic(auto, unfolding(rv_model::specs::Instruction::conditional_of))]
pub fn wins(thread: &Thread, instr: &Instr) -> bool
    requires { IsValid instr.now }
    ensures { result ≡ wins (conditional_of thread.now.local instr.now) thread.now.reservation }
{
    match *instr {
        Instr::StoreConditional { rs1, .. } => {
            thread.reservation == Some(thread.local.register(rs1))
        }
        _ => false,
    }
}

/// The thread's own reservation after an instruction.
#[tactic(auto, unfolding(rv_model::specs::Instruction::reserving))]
pub fn reserving(thread: &Thread, instr: &Instr) -> Option<u32>
    requires { IsValid instr.now }
    ensures { result ≡ reserving thread.now.local instr.now thread.now.reservation }
{
    match *instr {
        Instr::LoadReserved { rs1, .. } => Some(thread.local.register(rs1)),
        Instr::StoreConditional { .. } => None,
        _ => thread.reservation,
    }
}

/// The thread that a step makes.
pub fn child_of(local: &Local, note: &Note) -> Option<Thread>
    ensures { option_to_list result ≡ child_of local.now (note_of note.now) }
{
    match note {
        Note::Call(
            CallNote::Spawn {
                entry,
                child: Some(child),
            },
        ) => {
            let made = Local::spawned(*child, *entry, local.register(3), local.register(11));
            Some(Thread::fresh(made))
        }
        _ => None,
    }
}

/// Why a step that went on halts the machine.
pub fn halt_then(tid: u8, note: &Note) -> Option<Halt>
    ensures { result ≡ halt_then tid (note_of note.now) }
{
    match note {
        Note::Call(CallNote::Exit { code }) => Some(Halt::Exited { tid, code: *code }),
        _ => None,
    }
}

/// The threads after a step of one of them, which wrote the span and made a thread or none.
pub fn go_on(threads: &mut Threads, tid: u8, after: Thread, span: Access, child: Option<Thread>)
    requires thread { tid < length threads.old }
    requires room { OnTrue (is_some child) (length threads.old < 8) }
    ensures { threads.new ≡ slice_set (map (losing_by (touches_span span)) threads.old) tid after ++ option_to_list child }
{
    threads.end_reservations(span);
    threads.set(tid, after);
    if let Some(child) = child {
        threads.push(child);
    }
}
