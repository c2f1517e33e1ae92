//! Logs, decided pairs of their steps, and the schedules that they give.

ghost use Rattle.std.specs.Prelude.{IfOk};
ghost use Rattle.happens_before.specs.Table.{IsOrderOf};

use crate::fitting::can_be_woven;
use guest_programs::logs::{DEADLOCK_LOG, LOCKED_LOG, LOST_UPDATE_LOG, RACING_FAULT_LOG};
use happens_before::order::Order;
use odr_log::log::{Log, Pos};
use odr_log::read_log;
use sched_text::schedule::Schedule;
use schedule_extract::extract::extract;
use std::alloc::{AllocError, Global};
use std::test::Fail;

/// A step by its thread and its number.
type Step = (u8, u32);

/// A log, the decided pairs, and how many steps which thread takes in turn.
struct Row {
    log: &'static [u8],
    decided: &'static [(Step, Step)],
    runs: &'static [(u8, usize)],
}

static ROWS: [Row; 6] = [
    // Two workers load and store a word, and are joined after ten steps of thread 0: a thread goes on until it has to wait.
    Row {
        log: &LOST_UPDATE_LOG,
        decided: &[],
        runs: &[(0, 10), (1, 7), (2, 7), (0, 15)],
    },
    // The second worker stores before the first loads. Their ends are calls, in the order of the log.
    Row {
        log: &LOST_UPDATE_LOG,
        decided: &[((2, 4), (1, 2))],
        runs: &[(0, 10), (1, 2), (2, 6), (1, 5), (2, 1), (0, 15)],
    },
    // Both load before either stores; one of the pairs stands there twice.
    Row {
        log: &LOST_UPDATE_LOG,
        decided: &[
            ((2, 2), (1, 4)),
            ((1, 2), (2, 4)),
            ((1, 4), (2, 4)),
            ((2, 2), (1, 4)),
        ],
        runs: &[(0, 10), (1, 4), (2, 4), (1, 3), (2, 3), (0, 15)],
    },
    // The same under a lock, which thread 1 takes first, and ends first.
    Row {
        log: &LOCKED_LOG,
        decided: &[],
        runs: &[(0, 10), (1, 11), (2, 11), (1, 1), (2, 1), (0, 15)],
    },
    // Thread 0 faults after its eight steps.
    Row {
        log: &RACING_FAULT_LOG,
        decided: &[((1, 2), (0, 6))],
        runs: &[(0, 6), (1, 5), (0, 3)],
    },
    // Two workers that wait for each other's lock for ever, without an end.
    Row {
        log: &DEADLOCK_LOG,
        decided: &[((2, 2), (1, 3))],
        runs: &[(0, 9), (1, 3), (2, 4), (1, 1)],
    },
];

fn rows() -> &'static [Row] {
    &ROWS
}

fn at(step: Step) -> Pos {
    Pos {
        thread: step.0,
        step: step.1,
    }
}

fn pairs_of(alloc: Global, decided: &[(Step, Step)]) -> Result<Vec<(Pos, Pos)>, AllocError> {
    decided
        .iter()
        .map(|pair| (at(pair.0), at(pair.1)))
        .collect(alloc)
}

/// A schedule from its runs of one thread.
fn schedule_of(alloc: Global, runs: &[(u8, usize)]) -> Result<Vec<u8>, AllocError> {
    let mut schedule = Vec::new(alloc);
    for (thread, count) in runs {
        let longer = schedule.len().saturating_add(*count);
        schedule.resize(longer, *thread)?;
    }
    Ok(schedule)
}

/// The steps of a schedule in their order.
fn steps_of(alloc: Global, schedule: &[u8]) -> Result<Vec<Pos>, AllocError> {
    let mut next = [0u32; 256];
    let mut steps = Vec::new(alloc);
    for thread in schedule {
        let step = next[*thread as usize];
        next[*thread as usize] = step.saturating_add(1);
        steps.push(Pos {
            thread: *thread,
            step,
        })?;
    }
    Ok(steps)
}

fn log_of(alloc: Global, bytes: &[u8]) -> Result<Log, Fail> {
    Ok(read_log(alloc, bytes).ok().ok_or("a log")?)
}

fn order_of(alloc: Global, log: &Log) -> Result<Order, Fail>
    ensures { IfOk result (λ order. IsOrderOf order log.now) }
{
    let order = Order::new(alloc, log)?;
    Ok(order.ok_or("calls that fit")?)
}

/// The schedule that is woven for pairs; `steps` show that they can be woven.
fn woven(
    alloc: Global,
    log: &Log,
    decided: &[(Pos, Pos)],
    steps: &[Pos],
) -> Result<Schedule, Fail> {
    let order = order_of(alloc, log)?;
    if !can_be_woven(log, &order, decided, steps) {
        return Err("pairs that can be woven".into());
    }
    Ok(extract(alloc, log, &order, decided)?)
}

/// Whether a row's schedule is woven.
fn is_woven(alloc: Global, row: &Row) -> Result<bool, Fail> {
    let decided = pairs_of(alloc, row.decided)?;
    let schedule = schedule_of(alloc, row.runs)?;
    let steps = steps_of(alloc, schedule.as_slice())?;
    let log = log_of(alloc, row.log)?;
    let found = woven(alloc, &log, decided.as_slice(), steps.as_slice())?;
    Ok(found.as_slice() == schedule.as_slice())
}

/// The number of the first row whose schedule isn't woven.
fn first_wrong(alloc: Global, rows: &[Row]) -> Result<Option<usize>, Fail> {
    for (number, row) in rows.iter().enumerate() {
        if !is_woven(alloc, row)? {
            return Ok(Some(number));
        }
    }
    Ok(None)
}

#[test]
fn decided_pairs_give_worked_schedules(rt: HostRuntime) -> Result<(), Fail> {
    assert_eq!(rt; first_wrong(rt.alloc(), rows())?, None);
    Ok(())
}
