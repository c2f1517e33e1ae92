//! The recorded order of the steps of a log.

ghost use Rattle.std.specs.Prelude.{◌≡◌, ◌≤◌, ◌<◌, ◌↔◌, length, IsTrue, IfOk, IfSome, IfNone, Some};
ghost use Rattle.std.specs.List.Sorted.{IsNonDecreasingBy, IsPartitionPoint};
ghost use Rattle.odr_log.specs.declared.log.Log.{Log};
ghost use Rattle.rv_model.specs.CallsFit.{CallsFit};
ghost use Rattle.rv_model.specs.RecordedOrder.{Counted, RecordedOrder, IsOpen};
ghost use Rattle.happens_before.specs.Table.{IsOrderOf, thread_calls};
ghost use Rattle.happens_before.specs.Reach.{IsLeast, IsGreatest, greater, meets, Leaves, Called, Reached};

use crate::fit::calls_fit;
use crate::table::{Mark, ThreadCalls, order_of};
use odr_list::list::List;
use odr_list::memory::Memory;
use odr_log::log::{Log, Pos};
use std::alloc::Global;
use std::marker::Model;

/// The order of steps that the log of a run records: within a thread from step to step, from each call to every later
/// one, and from a spawn to the steps of the thread that it made, through any number of these. Which thread won a race
/// is not in it. Calls at steps that the log doesn't count are in no order.
///
/// Contracts see it as the list of the counted calls of each thread, which is what it keeps.
#[derive(Debug, Drop)]
pub struct Order {
    threads: List<ThreadCalls>,
}

impl Model for Order {
    ghost use Rattle.std.specs.Prelude.{List};
    ghost use Rattle.happens_before.specs.declared.table.ThreadCalls.{ThreadCalls};

    ghost Value = { List ThreadCalls };

    ghost view = { λ order. order.threads };
}

/// How many of these calls stand at steps before `end`, where the calls stand in order.
fn count_before(calls: &[Mark], end: u64) -> usize
    ensures within { result ≤ length calls.now }
    ensures point { IsNonDecreasingBy (λ m. m.step) calls.now → IsPartitionPoint (λ m. m.step < end) (λ m. end ≤ m.step) calls.now result }
{
    calls.partition_point(|mark| u64::from(mark.step) < end)
}

/// The greater number, of those that are there.
fn greater(a: Option<usize>, b: Option<usize>) -> Option<usize>
    ensures { result ≡ greater a b }
{
    match (a, b) {
        (Some(a), Some(b)) => Some(a.max(b)),
        (Some(a), None) => Some(a),
        (None, b) => b,
    }
}

/// Whether both numbers are there, the first no later than the second.
fn meets(leave: Option<usize>, arrival: Option<usize>) -> bool
    ensures { result ≡ meets leave arrival }
{
    match (leave, arrival) {
        (Some(leave), Some(arrival)) => leave <= arrival,
        _ => false,
    }
}

impl Order {
    /// The order that a log records; none exactly where the calls of the log don't fit the table of guest calls.
    ///
    /// # Errors
    ///
    /// `Memory` alone.
    pub fn new(alloc: Global, log: &Log) -> Result<Option<Order>, Memory>
        ensures order { IfOk result (λ o. IfSome o (λ order. IsOrderOf order log.now)) }
        ensures none { IfOk result (λ o. IfNone o (CallsFit log.now → ⊥)) }
    {
        if !calls_fit(alloc, log)? {
            return Ok(None);
        }
        let threads = order_of(alloc, log)?;
        Ok(Some(Order { threads }))
    }

    /// The counted calls of a thread, none of one that the log has not.
    fn calls(&self, thread: u8) -> &[Mark]
        ensures { result.now ≡ (thread_calls self.now thread).calls }
    {
        match self.threads.as_slice().get(thread as usize) {
            Some(thread) => thread.calls.as_slice(),
            None => &[],
        }
    }

    /// The number of the spawn that made a thread.
    fn maker(&self, thread: u8) -> Option<usize>
        ensures { result ≡ (thread_calls self.now thread).maker }
    {
        match self.threads.as_slice().get(thread as usize) {
            Some(thread) => thread.maker,
            None => None,
        }
    }

    /// The number of the first call of its thread at a step or after it.
    fn leave(&self, at: Pos) -> Option<usize>
        ensures { (log : Log) → IsOrderOf self.now log → Counted log at → IsLeast (Leaves log at) result }
    {
        let calls = self.calls(at.thread);
        let place = count_before(calls, u64::from(at.step));
        if place < calls.len() {
            Some(calls[place].number)
        } else {
            None
        }
    }

    /// The number of the last call of its thread at a step or before it.
    fn last_call(&self, at: Pos) -> Option<usize>
        ensures { (log : Log) → IsOrderOf self.now log → Counted log at → IsGreatest (Called log at) result }
    {
        let calls = self.calls(at.thread);
        match count_before(calls, u64::from(at.step) + 1) {
            0 => None,
            count => Some(calls[count - 1].number),
        }
    }

    /// The number of the last call that is before a step or is the step, whether in its thread or as the spawn that
    /// made the thread.
    fn arrival(&self, at: Pos) -> Option<usize>
        ensures { (log : Log) → IsOrderOf self.now log → Counted log at → IsGreatest (Reached log at) result }
    {
        greater(self.last_call(at), self.maker(at.thread))
    }

    /// Whether one step is recorded to stand before another, of steps that the log counts. Takes no memory.
    pub fn before(&self, a: Pos, b: Pos) -> bool
        ensures { (log : Log) → IsOrderOf self.now log → Counted log a → Counted log b → IsTrue result ↔ RecordedOrder log a b }
    {
        if a.thread == b.thread {
            return a.step < b.step;
        }
        meets(self.leave(a), self.arrival(b))
    }

    /// Whether two steps are of different threads and neither is recorded to stand before the other, of steps that the
    /// log counts. Takes no memory.
    pub fn is_open(&self, a: Pos, b: Pos) -> bool
        ensures { (log : Log) → IsOrderOf self.now log → Counted log a → Counted log b → IsTrue result ↔ IsOpen log a b }
    {
        a.thread != b.thread && !self.before(a, b) && !self.before(b, a)
    }
}
