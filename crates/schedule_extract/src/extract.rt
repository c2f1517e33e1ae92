//! Weaving the threads of a log into a schedule.
ghost use Rattle.std.specs.Prelude.{◌≡◌, ◌≤◌, ◌++◌, length, IfOk, OnOk, option_to_list};
ghost use Rattle.std.specs.Option.{option_map};
ghost use Rattle.std.specs.List.Sorted.{IsNonDecreasingBy};
ghost use Rattle.happens_before.specs.Table.{IsOrderOf};
ghost use Rattle.rv_model.specs.CallsFit.{CallsFit};
ghost use Rattle.guided_walk.specs.Woven.{Woven, faulting};
ghost use Rattle.schedule_extract.specs.Going.{ExitsEnd, IsExitOf, IsGoing, NoRing, PairsCounted, PairsGoOn};

use crate::marks::by_step;
use crate::ready::{exit_of, find_ready};
use happens_before::order::Order;
use odr_list::memory::Memory;
use odr_log::log::{End, Log, Pos};
use sched_text::schedule::Schedule;
use std::alloc::Global;

/// A schedule of all counted steps but for the exit. It goes on with one thread while that is ready.
fn weave(
    alloc: Global,
    log: &Log,
    order: &Order,
    pairs: &[(Pos, Pos)],
    exit: Option<Pos>,
) -> Result<Schedule, Memory>
    requires of_log { IsOrderOf order.now log.now }
    requires few { length log.now.threads ≤ 256 }
    requires sorted { IsNonDecreasingBy (λ pair. pair.1.step) pairs.now }
    requires exit { IsExitOf log.now exit }
    requires exits_end { ExitsEnd log.now }
    requires counted { PairsCounted log.now pairs.now }
    requires go_on { PairsGoOn log.now pairs.now }
    requires no_ring { NoRing log.now pairs.now }
    ensures { IfOk result (IsGoing log.now pairs.now exit) }
{
    let mut schedule = Schedule::new(alloc);
    let mut next = [0; 256];
    let mut marks = [0; 256];
    let mut current = 0;
    while let Some(thread) = find_ready(log, order, pairs, exit, &next, &mut marks, current) {
        schedule.push(thread)?;
        next[thread as usize] += 1;
        current = thread;
    }
    Ok(schedule)
}

/// The thread whose fault ends the log.
fn faulting(end: End) -> Option<u8>
    ensures { option_to_list result ≡ faulting end }
{
    match end {
        End::Faulted { tid, .. } => Some(tid),
        _ => None,
    }
}

/// The thread of a step.
fn thread_of(at: Option<Pos>) -> Option<u8>
    ensures { result ≡ option_map (λ at. at.thread) at }
{
    at.map(|at| at.thread)
}

/// Appends a step of a thread, where there is one.
fn push_step(schedule: &mut Schedule, thread: Option<u8>) -> Result<(), Memory>
    ensures { OnOk result (schedule.new ≡ schedule.old ++ option_to_list thread) }
{
    if let Some(thread) = thread {
        schedule.push(thread)?;
    }
    Ok(())
}

/// A schedule that is woven for the decided pairs: each thread's counted steps in an order that keeps the recorded one
/// and has each decided pair in its order, an exit last, and behind it all a step of the thread whose fault ends the
/// log. It goes on with one thread while that is ready.
///
/// The order is that of the log, an exit is the last step of its thread and is first in no decided pair, and the
/// decided pairs are of counted steps and make no ring with the recorded order. While a thread goes on, each step asks
/// the order once for each thread, and where another one has to go on, once for each two threads at most; each thread
/// passes each pair once.
///
/// # Errors
///
/// `Memory` alone.
pub fn extract(
    alloc: Global,
    log: &Log,
    order: &Order,
    decided: &[(Pos, Pos)],
) -> Result<Schedule, Memory>
    requires of_log { IsOrderOf order.now log.now }
    requires exits_end { ExitsEnd log.now }
    requires counted { PairsCounted log.now decided.now }
    requires go_on { PairsGoOn log.now decided.now }
    requires no_ring { NoRing log.now decided.now }
    ensures { IfOk result (Woven log.now decided.now) }
{
    let exit = exit_of(log);
    let pairs = by_step(alloc, decided)?;
    let mut schedule = weave(alloc, log, order, pairs.as_slice(), exit)?;
    push_step(&mut schedule, thread_of(exit))?;
    push_step(&mut schedule, faulting(log.end))?;
    Ok(schedule)
}
