//! Whether pairs can be woven, seen by a list of steps that has all of a log in order.
ghost use Rattle.std.specs.Prelude.{◌≡◌, ℕ, ◌+◌, ◌<◌, ◌≤◌, ◌↔◌, Contains, IsTrue, length, slice_index_or};
ghost use Rattle.odr_log.specs.declared.log.Pos.{Pos};
ghost use Rattle.rv_model.specs.RecordedOrder.{Counted, RecordedOrder};
ghost use Rattle.rv_model.specs.Run.{logged};
ghost use Rattle.happens_before.specs.Table.{IsOrderOf};
ghost use Rattle.schedule_extract.specs.Going.{ExitsEnd, Precedes};
ghost use Rattle.schedule_extract.specs.Law.{CanBeWoven};
ghost use Rattle.schedule_rows.specs.Fitting.{HasSteps, IsLast, AreInOrder, GoesOn};

use happens_before::order::Order;
use odr_log::log::{Call, Log, Pos};
use rv_model::logged::steps_logged;

fn has_step(steps: &[Pos], at: Pos) -> bool
    ensures { IsTrue result → Contains steps.now at }
{
    steps.contains(&at)
}

fn has_pair(pairs: &[(Pos, Pos)], pair: (Pos, Pos)) -> bool
    ensures { Contains pairs.now pair → IsTrue result }
{
    pairs.contains(&pair)
}

/// Whether a list has so many steps of a thread.
fn has_steps(steps: &[Pos], thread: u8, count: u32) -> bool
    ensures { IsTrue result → HasSteps steps.now thread count }
{
    for step in 0..count {
        if !has_step(steps, Pos { thread, step }) {
            return false;
        }
    }
    true
}

/// Whether a list has each counted step of a log.
fn has_all(log: &Log, steps: &[Pos]) -> bool
    requires { length log.now.threads ≤ 256 }
    ensures { IsTrue result → (p : Pos) → Counted log.now p → Contains steps.now p }
{
    for thread in 0..log.threads.len() {
        if !has_steps(steps, thread as u8, steps_logged(log, thread)) {
            return false;
        }
    }
    true
}

fn is_counted(log: &Log, at: Pos) -> bool
    ensures { IsTrue result ↔ Counted log.now at }
{
    at.step < steps_logged(log, usize::from(at.thread))
}

/// Whether a step is recorded to stand before another.
fn is_recorded(log: &Log, order: &Order, first: Pos, second: Pos) -> bool
    requires { IsOrderOf order.now log.now }
    ensures { RecordedOrder log.now first second → IsTrue result }
{
    if is_counted(log, first) && is_counted(log, second) {
        return order.before(first, second);
    }
    false
}

/// Whether a step is recorded or decided to stand before another.
fn precedes(log: &Log, order: &Order, decided: &[(Pos, Pos)], first: Pos, second: Pos) -> bool
    requires { IsOrderOf order.now log.now }
    ensures { Precedes log.now decided.now first second → IsTrue result }
{
    is_recorded(log, order, first, second) || has_pair(decided, (first, second))
}

/// Whether a step of a list must stand before none that stands up to it.
fn is_last(log: &Log, order: &Order, decided: &[(Pos, Pos)], steps: &[Pos], at: usize) -> bool
    requires of_log { IsOrderOf order.now log.now }
    requires within { at < length steps.now }
    ensures { IsTrue result → IsLast log.now decided.now steps.now at }
{
    for earlier in 0..at + 1 {
        if precedes(log, order, decided, steps[at], steps[earlier]) {
            return false;
        }
    }
    true
}

/// Whether a list has each step behind all that must stand before it.
fn are_in_order(log: &Log, order: &Order, decided: &[(Pos, Pos)], steps: &[Pos]) -> bool
    requires { IsOrderOf order.now log.now }
    ensures { IsTrue result → AreInOrder log.now decided.now steps.now }
{
    for at in 0..steps.len() {
        if !is_last(log, order, decided, steps, at) {
            return false;
        }
    }
    true
}

/// Whether a pair is of counted steps, and its first is not the last of its thread.
fn goes_on(log: &Log, pair: (Pos, Pos)) -> bool
    ensures { IsTrue result → GoesOn log.now pair }
{
    let steps = steps_logged(log, usize::from(pair.0.thread));
    u64::from(pair.0.step) + 1 < u64::from(steps) && is_counted(log, pair.1)
}

fn all_go_on(log: &Log, decided: &[(Pos, Pos)]) -> bool
    ensures { IsTrue result → (p q : Pos) → Contains decided.now (p, q) → GoesOn log.now (p, q) }
{
    for pair in decided {
        if !goes_on(log, *pair) {
            return false;
        }
    }
    true
}

/// Whether an exit is the last step of its thread.
fn exits_end(log: &Log) -> bool
    ensures { IsTrue result → ExitsEnd log.now }
{
    for made in log.calls.as_slice() {
        let steps = u64::from(steps_logged(log, usize::from(made.tid)));
        if matches!(made.call, Call::Exit { .. }) && u64::from(made.at) + 1 != steps {
            return false;
        }
    }
    true
}

/// Whether the pairs can be woven; `steps` are the steps of such a schedule.
pub fn can_be_woven(log: &Log, order: &Order, decided: &[(Pos, Pos)], steps: &[Pos]) -> bool
    requires { IsOrderOf order.now log.now }
    ensures { IsTrue result → CanBeWoven log.now decided.now }
{
    if log.threads.len() > 256 || !has_all(log, steps) {
        return false;
    }
    if !are_in_order(log, order, decided, steps) {
        return false;
    }
    all_go_on(log, decided) && exits_end(log)
}
