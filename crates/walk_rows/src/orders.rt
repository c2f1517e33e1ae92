//! Whether the calls of a log fit, and in which order steps are recorded.

use happens_before::order::Order;
use odr_list::bytes::Bytes;
use odr_list::list::List;
use odr_log::log::{Call, CallRec, Cause, End, Log, Pos, ThreadLog};
use std::alloc::Global;
use std::test::Fail;

/// A call of a test's log; of bytes that are read or written only the count is told.
#[derive(Clone, Copy)]
enum Act {
    Exit(u32),
    EndThread,
    Spawn(u32, Option<u8>),
    Join(u32, bool),
    Lock(u32, bool),
    Unlock(u32, bool),
    TryLock(u32, bool),
    Write(usize),
    WriteBad,
    Read(u32, usize),
    ReadBad,
    SelfId,
    Yield,
    Unknown(u32),
}

/// The thread that calls, its step, and the call.
type Row = (u8, u32, Act);

/// An entry where code may begin, and one that is no multiple of four.
const WORK: u32 = 0x10064;

const ODD: u32 = 0x10066;

const CUT: End = End::Cut;

const DONE: End = End::AllDone;

fn zeros(alloc: Global, count: usize) -> Result<Bytes, Fail> {
    Ok(Bytes::of(vec![in alloc; 0; count]?))
}

fn call_of(alloc: Global, act: Act) -> Result<Call, Fail> {
    Ok(match act {
        Act::Exit(code) => Call::Exit { code },
        Act::EndThread => Call::EndThread,
        Act::Spawn(entry, child) => Call::Spawn { entry, child },
        Act::Join(target, ok) => Call::Join { target, ok },
        Act::Lock(mutex, ok) => Call::Lock { mutex, ok },
        Act::Unlock(mutex, ok) => Call::Unlock { mutex, ok },
        Act::TryLock(mutex, got) => Call::TryLock { mutex, got },
        Act::Write(count) => Call::Write {
            bytes: zeros(alloc, count)?,
        },
        Act::WriteBad => Call::WriteBad,
        Act::Read(want, count) => Call::Read {
            want,
            bytes: zeros(alloc, count)?,
        },
        Act::ReadBad => Call::ReadBad,
        Act::SelfId => Call::SelfId,
        Act::Yield => Call::Yield,
        Act::Unknown(number) => Call::Unknown { number },
    })
}

/// A log of threads with these numbers of steps.
fn log_of(alloc: Global, steps: &[u32], rows: &[Row], end: End) -> Result<Log, Fail> {
    let mut threads = Vec::new(alloc);
    for steps in steps {
        threads.push(ThreadLog {
            steps: *steps,
            path: List::new(alloc),
        })?;
    }
    let mut calls = Vec::new(alloc);
    for (tid, at, act) in rows {
        calls.push(CallRec {
            tid: *tid,
            at: *at,
            call: call_of(alloc, *act)?,
        })?;
    }
    Ok(Log {
        version: 1,
        threads: List::of(threads),
        calls: List::of(calls),
        end,
    })
}

/// The number of threads of thirty steps, their calls, the end, and whether the calls fit.
type Case<'a> = (usize, &'a [Row], End, bool);

/// The number of the first case that is not as told.
fn first_wrong(alloc: Global, cases: &[Case]) -> Result<Option<usize>, Fail> {
    let steps = [30; 9];
    for (index, (threads, rows, end, fits)) in cases.iter().enumerate() {
        let count = (*threads).min(steps.len());
        let log = log_of(alloc, &steps[..count], rows, *end)?;
        if Order::new(alloc, &log)?.is_some() != *fits {
            return Ok(Some(index));
        }
    }
    Ok(None)
}

const EXITED: End = End::Exited { tid: 0, code: 7 };

const FAULTED: End = End::Faulted {
    tid: 0,
    cause: Cause::LoadFault,
};

static ENDS: [Case<'static>; 15] = [
    (1, &[], CUT, true),
    (1, &[], FAULTED, true),
    (1, &[], DONE, false),
    (1, &[], EXITED, false),
    (0, &[], CUT, false),
    (2, &[], CUT, false),
    (1, &[(0, 5, Act::Exit(7))], EXITED, true),
    (1, &[(0, 5, Act::Exit(8))], EXITED, false),
    (1, &[(0, 5, Act::Exit(7))], CUT, false),
    (1, &[(0, 5, Act::Exit(7))], FAULTED, false),
    (1, &[(0, 5, Act::Exit(7)), (0, 6, Act::Yield)], CUT, false),
    (1, &[(0, 5, Act::EndThread)], DONE, true),
    (1, &[(0, 5, Act::EndThread)], CUT, false),
    (1, &[(0, 5, Act::EndThread)], FAULTED, false),
    (
        1,
        &[(0, 5, Act::EndThread), (0, 6, Act::Yield)],
        DONE,
        false,
    ),
];

#[test]
fn ends_fit(rt: HostRuntime) -> Result<(), Fail> {
    assert_eq!(rt; first_wrong(rt.alloc(), &ENDS)?, None);
    Ok(())
}

/// A call, and whether it fits as the only one of the only thread.
static ALONE: [(Act, bool); 32] = [
    (Act::Spawn(ODD, None), true),
    (Act::Spawn(WORK, None), false),
    (Act::Join(0, false), true),
    (Act::Join(0, true), false),
    (Act::Join(1, false), true),
    (Act::Join(1, true), false),
    (Act::Lock(31, true), true),
    (Act::Lock(31, false), false),
    (Act::Lock(32, false), true),
    (Act::Lock(32, true), false),
    (Act::Unlock(0, false), true),
    (Act::Unlock(0, true), false),
    (Act::Unlock(32, false), true),
    (Act::Unlock(32, true), false),
    (Act::TryLock(0, true), true),
    (Act::TryLock(0, false), false),
    (Act::TryLock(32, false), true),
    (Act::TryLock(32, true), false),
    (Act::Write(256), true),
    (Act::Write(257), false),
    (Act::WriteBad, true),
    (Act::Read(256, 256), true),
    (Act::Read(257, 4), false),
    (Act::Read(4, 5), false),
    (Act::Read(4, 3), true),
    (Act::ReadBad, true),
    (Act::SelfId, true),
    (Act::Yield, true),
    (Act::Unknown(0), true),
    (Act::Unknown(1), false),
    (Act::Unknown(11), false),
    (Act::Unknown(12), true),
];

/// Two calls of one thread, and whether they fit: of the bytes that are left, of a mutex, and of steps that rise.
static PAIRS: [(Act, Act, bool); 12] = [
    (Act::Read(4, 4), Act::Read(4, 4), true),
    (Act::Read(4, 3), Act::Read(4, 0), true),
    (Act::Read(4, 3), Act::Read(4, 1), false),
    (Act::Read(4, 3), Act::Read(0, 0), true),
    (Act::Lock(0, true), Act::Lock(0, false), true),
    (Act::Lock(0, true), Act::Lock(0, true), false),
    (Act::Lock(0, true), Act::Lock(1, true), true),
    (Act::Lock(0, true), Act::Unlock(0, true), true),
    (Act::Lock(0, true), Act::Unlock(0, false), false),
    (Act::Lock(0, true), Act::TryLock(0, false), true),
    (Act::TryLock(0, true), Act::Unlock(0, true), true),
    (Act::TryLock(0, true), Act::TryLock(0, true), false),
];

#[test]
fn calls_of_one_thread_fit(rt: HostRuntime) -> Result<(), Fail> {
    for (index, (act, fits)) in ALONE.iter().enumerate() {
        let wrong = first_wrong(rt.alloc(), &[(1, [(0, 5, *act)].as_slice(), CUT, *fits)])?;
        assert_eq!(rt; wrong, None, "call {index}");
    }
    for (index, (first, second, fits)) in PAIRS.iter().enumerate() {
        let rising = [(0, 5, *first), (0, 6, *second)];
        let level = [(0, 5, *first), (0, 5, *second)];
        let cases = [
            (1, rising.as_slice(), CUT, *fits),
            (1, level.as_slice(), CUT, false),
        ];
        assert_eq!(rt; first_wrong(rt.alloc(), &cases)?, None, "pair {index}");
    }
    Ok(())
}

/// What follows the spawn of thread 1, and whether it fits.
static SPAWNED: [(&[Row], bool); 16] = [
    (&[], true),
    (&[(1, 2, Act::Yield)], true),
    (&[(2, 2, Act::Yield)], false),
    (&[(0, 5, Act::Join(1, true))], false),
    (&[(0, 5, Act::Join(1, false))], false),
    (&[(1, 2, Act::EndThread), (0, 5, Act::Join(1, true))], true),
    (
        &[(1, 2, Act::EndThread), (0, 5, Act::Join(1, false))],
        false,
    ),
    (&[(1, 2, Act::EndThread), (1, 5, Act::Yield)], false),
    (
        &[(0, 5, Act::Lock(0, true)), (1, 2, Act::Lock(0, true))],
        false,
    ),
    (
        &[(0, 5, Act::Lock(0, true)), (1, 2, Act::Lock(0, false))],
        false,
    ),
    (
        &[(0, 5, Act::Lock(0, true)), (1, 2, Act::Lock(1, true))],
        true,
    ),
    (
        &[(0, 5, Act::Lock(0, true)), (1, 2, Act::Unlock(0, false))],
        true,
    ),
    (
        &[(0, 5, Act::Lock(0, true)), (1, 2, Act::Unlock(0, true))],
        false,
    ),
    (
        &[(0, 5, Act::Lock(0, true)), (1, 2, Act::TryLock(0, false))],
        true,
    ),
    (&[(0, 5, Act::Spawn(WORK, Some(1)))], false),
    (&[(0, 5, Act::Spawn(WORK, Some(3)))], false),
];

#[test]
fn calls_of_several_threads_fit(rt: HostRuntime) -> Result<(), Fail> {
    let spawn = (0, 3, Act::Spawn(WORK, Some(1)));
    for (index, (rows, fits)) in SPAWNED.iter().enumerate() {
        let mut all = Vec::new(rt.alloc());
        all.push(spawn)?;
        all.extend_from_slice(rows)?;
        let wrong = first_wrong(rt.alloc(), &[(2, all.as_slice(), CUT, *fits)])?;
        assert_eq!(rt; wrong, None, "case {index}");
    }
    Ok(())
}

#[test]
fn eight_threads_fit(rt: HostRuntime) -> Result<(), Fail> {
    let mut rows = Vec::new(rt.alloc());
    for child in 1..8u8 {
        rows.push((0, u32::from(child), Act::Spawn(WORK, Some(child))))?;
    }
    let seven = [
        (8, rows.as_slice(), CUT, true),
        (7, rows.as_slice(), CUT, false),
    ];
    assert_eq!(rt; first_wrong(rt.alloc(), &seven)?, None);
    rows.push((0, 9, Act::Spawn(WORK, None)))?;
    assert_eq!(rt;
        first_wrong(rt.alloc(), &[(8, rows.as_slice(), CUT, true)])?,
        None
    );
    rows.push((0, 10, Act::Spawn(WORK, Some(8))))?;
    let eight = [
        (8, rows.as_slice(), CUT, false),
        (9, rows.as_slice(), CUT, false),
    ];
    assert_eq!(rt; first_wrong(rt.alloc(), &eight)?, None);
    Ok(())
}

/// A step by its thread and its number.
fn at(step: (u8, u32)) -> Pos {
    Pos {
        thread: step.0,
        step: step.1,
    }
}

/// Two steps, whether the first is before the second, and whether they are open; no second is before its first.
type Pair = ((u8, u32), (u8, u32), bool, bool);

/// The number of the first pair that is not as told, or how many there are where the calls don't fit.
fn first_wrong_pair(alloc: Global, log: &Log, pairs: &[Pair]) -> Result<Option<usize>, Fail> {
    match Order::new(alloc, log)? {
        None => Ok(Some(pairs.len())),
        Some(order) => Ok(
            pairs.iter().position(|(a, b, before, open)| !is_so(
                &order,
                at(*a),
                at(*b),
                *before,
                *open,
            )),
        ),
    }
}

fn is_so(order: &Order, a: Pos, b: Pos, before: bool, open: bool) -> bool {
    order.before(a, b) == before
        && !order.before(b, a)
        && order.is_open(a, b) == open
        && order.is_open(b, a) == open
}

/// Two workers load and store one word at their steps 2 and 4; thread 0 loads it at 15 and writes it at 21.
static LOST_UPDATE: [Row; 8] = [
    (0, 4, Act::Spawn(WORK, Some(1))),
    (0, 7, Act::Spawn(WORK, Some(2))),
    (1, 6, Act::EndThread),
    (2, 6, Act::EndThread),
    (0, 10, Act::Join(1, true)),
    (0, 12, Act::Join(2, true)),
    (0, 21, Act::Write(1)),
    (0, 24, Act::Exit(0)),
];

static LOST_UPDATE_PAIRS: [Pair; 16] = [
    ((1, 2), (2, 2), false, true),
    ((1, 2), (2, 4), false, true),
    ((1, 4), (2, 2), false, true),
    ((1, 4), (2, 4), false, true),
    ((1, 2), (1, 4), true, false),
    ((1, 4), (1, 4), false, false),
    ((0, 7), (2, 0), true, false),
    ((0, 4), (1, 0), true, false),
    ((0, 3), (2, 6), true, false),
    ((0, 5), (1, 0), false, true),
    ((0, 8), (2, 5), false, true),
    ((1, 4), (0, 15), true, false),
    ((2, 6), (0, 10), true, false),
    ((1, 6), (2, 6), true, false),
    ((1, 6), (2, 5), false, true),
    ((1, 0), (0, 24), true, false),
];

#[test]
fn steps_of_a_lost_update_are_ordered(rt: HostRuntime) -> Result<(), Fail> {
    let log = log_of(
        rt.alloc(),
        &[25, 7, 7],
        &LOST_UPDATE,
        End::Exited { tid: 0, code: 0 },
    )?;
    assert_eq!(rt;
        first_wrong_pair(rt.alloc(), &log, &LOST_UPDATE_PAIRS)?,
        None
    );
    Ok(())
}

/// The workers load and store one word at their steps 5 and 7, between the lock and the unlock.
static LOCKED: [Row; 12] = [
    (0, 4, Act::Spawn(WORK, Some(1))),
    (0, 7, Act::Spawn(WORK, Some(2))),
    (1, 2, Act::Lock(0, true)),
    (1, 9, Act::Unlock(0, true)),
    (2, 2, Act::Lock(0, true)),
    (2, 9, Act::Unlock(0, true)),
    (1, 11, Act::EndThread),
    (2, 11, Act::EndThread),
    (0, 10, Act::Join(1, true)),
    (0, 12, Act::Join(2, true)),
    (0, 21, Act::Write(1)),
    (0, 24, Act::Exit(0)),
];

static LOCKED_PAIRS: [Pair; 6] = [
    ((1, 5), (2, 5), true, false),
    ((1, 5), (2, 7), true, false),
    ((1, 7), (2, 5), true, false),
    ((1, 7), (2, 7), true, false),
    ((2, 7), (0, 15), true, false),
    ((1, 10), (2, 5), false, true),
];

#[test]
fn steps_under_a_lock_are_ordered(rt: HostRuntime) -> Result<(), Fail> {
    let end = End::Exited { tid: 0, code: 0 };
    let log = log_of(rt.alloc(), &[25, 12, 12], &LOCKED, end)?;
    assert_eq!(rt; first_wrong_pair(rt.alloc(), &log, &LOCKED_PAIRS)?, None);
    // The second lock before the first unlock.
    let mut rows = LOCKED;
    rows.swap(3, 4);
    let log = log_of(rt.alloc(), &[25, 12, 12], &rows, end)?;
    assert!(rt; Order::new(rt.alloc(), &log)?.is_none());
    Ok(())
}

#[test]
fn calls_that_are_not_counted_order_nothing(rt: HostRuntime) -> Result<(), Fail> {
    // Thread 1 calls at step 5, of which the log counts three steps.
    let rows = [
        (0, 4, Act::Spawn(WORK, Some(1))),
        (0, 7, Act::Spawn(WORK, Some(2))),
        (1, 5, Act::Yield),
        (2, 1, Act::Yield),
    ];
    let log = log_of(rt.alloc(), &[10, 3, 3], &rows, CUT)?;
    let pairs = [
        ((1, 0), (2, 2), false, true),
        ((0, 4), (1, 0), true, false),
        ((0, 7), (2, 2), true, false),
    ];
    assert_eq!(rt; first_wrong_pair(rt.alloc(), &log, &pairs)?, None);
    // Neither spawn is counted.
    let log = log_of(rt.alloc(), &[4, 3, 3], &rows, CUT)?;
    let pairs = [((0, 3), (1, 0), false, true), ((0, 0), (2, 2), false, true)];
    assert_eq!(rt; first_wrong_pair(rt.alloc(), &log, &pairs)?, None);
    Ok(())
}
