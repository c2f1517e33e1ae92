//! Whether the calls of a log fit the table of guest calls.

ghost use Rattle.std.specs.Prelude.{◌≡◌, ◌<◌, ◌↔◌, [], false, IsTrue, IfOk, IfSome, IfNone, AllPairs};
ghost use Rattle.rv_model.specs.declared.state.Note.TheVariants as Note;
ghost use Rattle.rv_model.specs.Calls.{opening_calls};
ghost use Rattle.rv_model.specs.Step.{halt_then};
ghost use Rattle.rv_model.specs.CallsFit.{Pass, is_exit, final_halt, EndFits, CallsFit};
ghost use Rattle.happens_before.specs.Shared.{tape_in, with_tape, calls_in, KeepsOrder, EndsSo};

use crate::shared::Shared;
use odr_list::memory::Memory;
use odr_log::log::{Call, CallRec, End, Log};
use rv_model::state::Halt;
use std::alloc::Global;

/// What the calls share after all records; none where one of them doesn't fit.
fn walk(alloc: Global, records: &[CallRec]) -> Result<Option<Shared>, Memory>
    ensures pass { IfOk result (λ o. IfSome o (λ shared. Pass (opening_calls (tape_in records.now)) records.now)) }
    ensures shared { IfOk result (λ o. IfSome o (λ shared. with_tape shared [] ≡ calls_in records.now)) }
    ensures none { IfOk result (λ o. IfNone o (Pass (opening_calls (tape_in records.now)) records.now → ⊥)) }
{
    let mut shared = Shared::opening(alloc)?;
    for made in records {
        if !shared.fits(made) {
            return Ok(None);
        }
        shared.go_on(made)?;
    }
    Ok(Some(shared))
}

/// Whether the calls of each thread stand at rising steps.
fn rises(records: &[CallRec]) -> bool
    ensures { IsTrue result ↔ AllPairs (λ earlier later. earlier.tid ≡ later.tid → earlier.at < later.at) records.now }
{
    // The least step that a thread's next call may have.
    let mut least = [0; 256];
    for made in records {
        let at = u64::from(made.at);
        if at < least[made.tid as usize] {
            return false;
        }
        least[made.tid as usize] = at + 1;
    }
    true
}

fn is_exit(call: &Call) -> bool
    ensures { result ≡ is_exit call.now }
{
    matches!(call, Call::Exit { .. })
}

/// Whether no call stands after an exit.
fn is_exit_last(records: &[CallRec]) -> bool
    ensures { IsTrue result ↔ AllPairs (λ earlier later. is_exit earlier.call ≡ false) records.now }
{
    match records {
        [] => true,
        [earlier @ .., _] => !earlier.iter().any(|made| is_exit(&made.call)),
    }
}

/// The halt that a call makes.
fn halt_by(tid: u8, call: &Call) -> Option<Halt>
    ensures { result ≡ halt_then tid (Note.Called call.now) }
{
    match call {
        Call::Exit { code } => Some(Halt::Exited { tid, code: *code }),
        _ => None,
    }
}

/// The halt that the last record makes.
fn final_halt(records: &[CallRec]) -> Option<Halt>
    ensures { result ≡ final_halt records.now }
{
    match records {
        [] => None,
        [.., last] => halt_by(last.tid, &last.call),
    }
}

/// Whether a log may end so, with this halt and with all threads ended or not.
fn fits_end(halt: Option<Halt>, all_ended: bool, end: End) -> bool
    ensures { IsTrue result ↔ EndFits halt all_ended end }
{
    match halt {
        Some(Halt::Exited { tid, code }) => end == End::Exited { tid, code },
        Some(Halt::Faulted { tid, cause }) => end == End::Faulted { tid, cause },
        None if all_ended => end == End::AllDone,
        None => matches!(end, End::Faulted { .. } | End::Cut),
    }
}

/// Whether the calls of each thread rise, and none stands after an exit.
fn keeps_order(records: &[CallRec]) -> bool
    ensures { IsTrue result ↔ KeepsOrder records.now }
{
    rises(records) && is_exit_last(records)
}

/// Whether a log may end as it does, with what its calls share after the last.
fn ends_so(log: &Log, shared: &Shared) -> bool
    ensures { IsTrue result ↔ EndsSo log.now shared.now }
{
    let halt = final_halt(log.calls.as_slice());
    shared.ended.len() == log.threads.len() && fits_end(halt, shared.all_ended(), log.end)
}

/// Whether the calls of a log could be made in the order of their records.
///
/// # Errors
///
/// `Memory` alone.
pub fn calls_fit(alloc: Global, log: &Log) -> Result<bool, Memory>
    ensures { IfOk result (λ fit. IsTrue fit ↔ CallsFit log.now) }
{
    let records = log.calls.as_slice();
    match walk(alloc, records)? {
        None => Ok(false),
        Some(shared) => Ok(keeps_order(records) && ends_so(log, &shared)),
    }
}
