//! Which thread can take its next step.
ghost use Rattle.std.specs.Prelude.{◌≡◌, ℕ, ◌+◌, ◌^◌, ◌<◌, ◌≤◌, ◌↔◌, IsTrue, IfSome, IfNone, length, slice_index_or};
ghost use Rattle.std.specs.List.Sorted.{IsNonDecreasingBy};
ghost use Rattle.odr_log.specs.declared.log.Pos.{Pos};
ghost use Rattle.rv_model.specs.Run.{logged};
ghost use Rattle.rv_model.specs.CallsFit.{CallsFit};
ghost use Rattle.rv_model.specs.RecordedOrder.{Counted, RecordedOrder};
ghost use Rattle.happens_before.specs.Table.{IsOrderOf};
ghost use Rattle.schedule_extract.specs.Going.{Goes, HasAll, IsExitOf, IsReady, IsStuck, Lacks, head};
ghost use Rattle.schedule_extract.specs.Marks.{AllPassed, ArePassed};

use crate::marks::{lacks_decided, pass};
use happens_before::order::Order;
use odr_log::log::{Call, Log, Pos};

/// The number of steps that the log counts of a thread, 0 for one that it has not.
pub fn steps_of(log: &Log, thread: u8) -> u32
    ensures { result ≡ (logged log.now thread).steps }
{
    match log.threads.as_slice().get(thread as usize) {
        Some(thread) => thread.steps,
        None => 0,
    }
}

/// The step that exits.
pub fn exit_of(log: &Log) -> Option<Pos>
    requires { CallsFit log.now }
    ensures { IsExitOf log.now result }
{
    let last = log.calls.as_slice().last()?;
    match last.call {
        Call::Exit { .. } => Some(Pos {
            thread: last.tid,
            step: last.at,
        }),
        _ => None,
    }
}

/// The next step of a thread that is recorded to stand before a step.
fn lacks_recorded(log: &Log, order: &Order, next: &[u32; 256], at: Pos) -> Option<Pos>
    requires of_log { IsOrderOf order.now log.now }
    requires few { length log.now.threads ≤ 256 }
    requires counted { Counted log.now at }
    ensures lacks { IfSome result (λ p. RecordedOrder log.now p at × (slice_index_or next.now p.thread 0 ≤ p.step)) }
    ensures none { IfNone result ((thread : ℕ) → RecordedOrder log.now (head next.now thread) at → ⊥) }
{
    for thread in 0..log.threads.len() {
        let first = Pos {
            thread: thread as u8,
            step: next[thread],
        };
        if first.step < steps_of(log, first.thread) && order.before(first, at) {
            return Some(first);
        }
    }
    None
}

/// Whether a step is counted and is not the exit.
fn goes(log: &Log, exit: Option<Pos>, at: Pos) -> bool
    ensures goes { IsTrue result ↔ Goes log.now exit at }
    ensures room { IsTrue result → at.step + 1 < 2 ^ 32 }
{
    at.step < steps_of(log, at.thread) && exit != Some(at)
}

/// A step that must stand before the next one of a thread and was not taken. Moves the thread's mark on.
fn lacks(
    log: &Log,
    order: &Order,
    pairs: &[(Pos, Pos)],
    next: &[u32; 256],
    marks: &mut [usize; 256],
    thread: u8,
) -> Option<Pos>
    requires of_log { IsOrderOf order.now log.now }
    requires few { length log.now.threads ≤ 256 }
    requires sorted { IsNonDecreasingBy (λ pair. pair.1.step) pairs.now }
    requires passed { AllPassed pairs.now next.now marks.old }
    requires counted { Counted log.now (head next.now thread) }
    ensures passed { AllPassed pairs.now next.now marks.new }
    ensures lacks { IfSome result (Lacks log.now pairs.now next.now (head next.now thread)) }
    ensures none { IfNone result (HasAll log.now pairs.now next.now (head next.now thread)) }
{
    let at = Pos {
        thread,
        step: next[thread as usize],
    };
    let mark = pass(pairs, next, at, marks[thread as usize]);
    marks[thread as usize] = mark;
    match lacks_decided(pairs, next, at, mark) {
        None => lacks_recorded(log, order, next, at),
        some => some,
    }
}

/// Whether a thread has a next step, other than the exit, and all that must stand before it was taken.
fn is_ready(
    log: &Log,
    order: &Order,
    pairs: &[(Pos, Pos)],
    exit: Option<Pos>,
    next: &[u32; 256],
    marks: &mut [usize; 256],
    thread: u8,
) -> bool
    requires of_log { IsOrderOf order.now log.now }
    requires few { length log.now.threads ≤ 256 }
    requires sorted { IsNonDecreasingBy (λ pair. pair.1.step) pairs.now }
    requires passed { AllPassed pairs.now next.now marks.old }
    ensures passed { AllPassed pairs.now next.now marks.new }
    ensures ready { IsTrue result → IsReady log.now pairs.now exit next.now thread }
    ensures stuck { (IsTrue result → ⊥) → IsStuck log.now pairs.now exit next.now thread }
    ensures room { IsTrue result → slice_index_or next.now thread 0 + 1 < 2 ^ 32 }
{
    let at = Pos {
        thread,
        step: next[thread as usize],
    };
    goes(log, exit, at) && lacks(log, order, pairs, next, marks, thread).is_none()
}

/// A thread that is ready; `current` where it is.
pub fn find_ready(
    log: &Log,
    order: &Order,
    pairs: &[(Pos, Pos)],
    exit: Option<Pos>,
    next: &[u32; 256],
    marks: &mut [usize; 256],
    current: u8,
) -> Option<u8>
    requires of_log { IsOrderOf order.now log.now }
    requires few { length log.now.threads ≤ 256 }
    requires sorted { IsNonDecreasingBy (λ pair. pair.1.step) pairs.now }
    requires passed { AllPassed pairs.now next.now marks.old }
    ensures passed { AllPassed pairs.now next.now marks.new }
    ensures ready { IfSome result (IsReady log.now pairs.now exit next.now) }
    ensures room { IfSome result (λ thread. slice_index_or next.now thread 0 + 1 < 2 ^ 32) }
    ensures none { IfNone result ((thread : ℕ) → thread < length log.now.threads → IsStuck log.now pairs.now exit next.now thread) }
{
    if is_ready(log, order, pairs, exit, next, marks, current) {
        return Some(current);
    }
    for thread in 0..log.threads.len() {
        if is_ready(log, order, pairs, exit, next, marks, thread as u8) {
            return Some(thread as u8);
        }
    }
    None
}
