ghost use Rattle.std.specs.Prelude.{◌<◌, ◌↔◌, All, IsTrue};

use crate::order::order_of_steps;
use odr_list::list::List;
use odr_list::memory::Memory;
use odr_log::log::{Call, CallRec, End, Log, Pos, ThreadLog};
use std::alloc::Global;
use std::process::Abort;
use std::test::Fail;

/// A call of a row.
#[derive(Clone, Copy)]
enum Made {
    Spawn(u8),
    Join(u32),
    EndThread,
}

/// The number of each thread's steps, the calls with their threads and steps, and all steps in their order.
type Row = (
    &'static [u32],
    &'static [(u8, u32, Made)],
    &'static [(u8, u32)],
);

static ROWS: [Row; 4] = [
    // Nothing ran.
    (&[0], &[], &[]),
    // A thread that makes no call stands behind its spawn, and behind what is left of the threads before it.
    (
        &[3, 2],
        &[(0, 0, Made::Spawn(1))],
        &[(0, 0), (0, 1), (0, 2), (1, 0), (1, 1)],
    ),
    // A join stands behind the end of the thread.
    (
        &[5, 2],
        &[
            (0, 1, Made::Spawn(1)),
            (1, 1, Made::EndThread),
            (0, 3, Made::Join(1)),
        ],
        &[(0, 0), (0, 1), (1, 0), (1, 1), (0, 2), (0, 3), (0, 4)],
    ),
    // The thread that was made last ends first.
    (
        &[4, 2, 1],
        &[
            (0, 0, Made::Spawn(1)),
            (0, 1, Made::Spawn(2)),
            (2, 0, Made::EndThread),
            (1, 1, Made::EndThread),
            (0, 2, Made::Join(1)),
            (0, 3, Made::Join(2)),
        ],
        &[(0, 0), (0, 1), (2, 0), (1, 0), (1, 1), (0, 2), (0, 3)],
    ),
];

fn rows() -> &'static [Row] {
    &ROWS
}

fn threads_of(alloc: Global, told: &[u32]) -> Result<List<ThreadLog>, Memory> {
    let mut threads = List::new(alloc);
    for steps in told {
        threads.push(ThreadLog {
            steps: *steps,
            path: List::new(alloc),
        })?;
    }
    Ok(threads)
}

fn call_of(made: Made) -> Call {
    match made {
        Made::Spawn(child) => Call::Spawn {
            entry: 0x1_0010,
            child: Some(child),
        },
        Made::Join(target) => Call::Join { target, ok: true },
        Made::EndThread => Call::EndThread,
    }
}

fn calls_of(alloc: Global, told: &[(u8, u32, Made)]) -> Result<List<CallRec>, Memory> {
    let mut calls = List::new(alloc);
    for (tid, at, made) in told {
        calls.push(CallRec {
            tid: *tid,
            at: *at,
            call: call_of(*made),
        })?;
    }
    Ok(calls)
}

fn are_callers_below(calls: &[CallRec], count: usize) -> bool
    ensures { IsTrue result ↔ All (λ r. r.tid < count) calls.now }
{
    calls.iter().all(|r| usize::from(r.tid) < count)
}

/// That a row's steps are told in its order.
fn tells(rt: &impl Abort, alloc: Global, row: Row) -> Result<(), Fail> {
    let log = Log {
        version: 1,
        threads: threads_of(alloc, row.0)?,
        calls: calls_of(alloc, row.1)?,
        end: End::Cut,
    };
    let count = log.threads.len();
    assert!(rt; count <= 256);
    assert!(rt; are_callers_below(log.calls.as_slice(), count));
    let order = order_of_steps(alloc, &log)?;
    assert_eq!(rt; order.len(), row.2.len());
    for (found, (thread, step)) in order.as_slice().iter().zip(row.2) {
        assert_eq!(rt;
            *found,
            Pos {
                thread: *thread,
                step: *step
            }
        );
    }
    Ok(())
}

#[test]
fn steps_stand_behind_what_they_are_made_of(rt: HostRuntime) -> Result<(), Fail> {
    for row in rows() {
        tells(&rt, rt.alloc(), *row)?;
    }
    Ok(())
}
