//! Runs of the plain machine and of the machine in place over whole programs, and the logs that they have. Each
//! program shows one thing that a schedule may decide.

use crate::files::{TEXT, changed, program_file};
use crate::machine::{compare, step_both};
use crate::stepping::is_same;
use Outcome::{Differs, Has};
use elf_image::image::Image;
use guest_machine::machine::Machine;
use guest_programs::logs::{
    BREAKPOINT_LOG, BYTES_MERGE_LOG, COMPUTED_ADDRESS_LOG, DEADLOCK_LOG, DIVIDE_LOG,
    EIGHT_THREADS_LOG, HELLO_FILE, HELLO_LOG, KEPT_LOCK_LOG, LOCKED_LOG, LOST_UPDATE_LOG,
    MISALIGNED_STORE_LOG, NO_CODE_LOG, RACING_FAULT_CUT_LOG, RACING_FAULT_LOG, SEEDED_CUT_LOG,
    STORE_BUFFERING_LOG, STORE_CONDITIONAL_PAIRS_LOG, TAPE_LOG, UNKNOWN_CALL_LOG,
};
use guest_programs::programs::{
    BREAKPOINT, BYTES_MERGE, COMPUTED_ADDRESS, DEADLOCK, DIVIDE, EIGHT_THREADS, HELLO, KEPT_LOCK,
    LOCKED, LOST_UPDATE, MISALIGNED_STORE, NO_CODE, Program, RACING_FAULT, SEEDED_CUT,
    STORE_BUFFERING, STORE_CONDITIONAL_PAIRS, TAPE, UNKNOWN_CALL,
};
use odr_list::bytes::Bytes;
use odr_list::list::List;
use odr_log::log::Log;
use odr_log::{read_log, tape};
use plain_machine::machine as plain;
use plain_machine::run::{first_difference, log_of};
use rv_model::state::{Event, Local, State, Thread};
use std::alloc::{AllocError, Global};
use std::process::Abort;
use std::test::Fail;

/// What comes of a schedule and a log.
#[derive(Clone, Copy)]
enum Outcome {
    /// The schedule has the log, and these threads are enabled at its end.
    Has(&'static [u8]),
    /// It differs from the log first at this place.
    Differs(usize),
}

/// Bytes of a log that are changed, a schedule by its runs of one thread, and what comes of them.
type Row = (&'static [(usize, u8)], &'static [(u8, usize)], Outcome);

/// A program, a log, and rows on them.
struct Guest {
    program: Program,
    log: &'static [u8],
    rows: &'static [Row],
}

static GUESTS: [Guest; 19] = [
    Guest {
        program: HELLO,
        log: &HELLO_LOG,
        rows: &[
            (&[], &[(0, 8)], Has(&[])),
            (&[], &[(0, 7)], Differs(7)),
            (&[], &[(0, 9)], Differs(8)),
            (&[], &[(255, 1)], Differs(0)),
            // The log says `ii` and a line feed.
            (&[(26, b'i')], &[(0, 8)], Differs(4)),
            // The log counts one step less.
            (&[(6, 7)], &[(0, 8)], Differs(7)),
            // The log ends with another code.
            (&[(41, 1)], &[(0, 8)], Differs(8)),
        ],
    },
    Guest {
        program: LOST_UPDATE,
        log: &LOST_UPDATE_LOG,
        rows: &[
            (
                &[],
                &[(0, 8), (1, 3), (2, 3), (1, 4), (2, 4), (0, 17)],
                Has(&[]),
            ),
            (&[(98, b'2')], &[(0, 8), (1, 7), (2, 7), (0, 17)], Has(&[])),
            (&[], &[(0, 8), (1, 7), (2, 7), (0, 17)], Differs(35)),
            (&[], &[(0, 11)], Differs(10)),
            (&[], &[(0, 8)], Differs(8)),
            (&[], &[], Differs(0)),
        ],
    },
    Guest {
        program: LOCKED,
        log: &LOCKED_LOG,
        rows: &[
            (
                &[],
                &[(0, 8), (1, 10), (2, 10), (1, 2), (2, 2), (0, 17)],
                Has(&[]),
            ),
            (&[], &[(0, 8), (1, 3), (2, 3)], Differs(13)),
        ],
    },
    Guest {
        program: STORE_BUFFERING,
        log: &STORE_BUFFERING_LOG,
        rows: &[
            // The second worker alone sees the other's store.
            (&[(31, 1)], &[(0, 8), (1, 8), (2, 8), (0, 8)], Has(&[])),
            // The first alone does.
            (
                &[(22, 1)],
                &[(0, 8), (2, 6), (1, 8), (2, 2), (0, 8)],
                Has(&[]),
            ),
            // Both do.
            (
                &[(22, 1), (31, 1)],
                &[(0, 8), (1, 4), (2, 4), (1, 4), (2, 4), (0, 8)],
                Has(&[]),
            ),
            (
                &[],
                &[(0, 8), (1, 4), (2, 4), (1, 4), (2, 4), (0, 8)],
                Differs(17),
            ),
        ],
    },
    Guest {
        program: BYTES_MERGE,
        log: &BYTES_MERGE_LOG,
        rows: &[
            (&[], &[(0, 11), (1, 6), (2, 6), (0, 8)], Has(&[])),
            (
                &[(76, b'A')],
                &[(0, 8), (1, 6), (0, 3), (2, 6), (0, 8)],
                Has(&[]),
            ),
            (
                &[(77, b'B')],
                &[(0, 8), (2, 4), (0, 3), (1, 6), (2, 2), (0, 8)],
                Has(&[]),
            ),
            (
                &[(76, b'A'), (77, b'B')],
                &[(0, 8), (1, 6), (2, 6), (0, 11)],
                Has(&[]),
            ),
            (
                &[(76, b'B'), (77, b'A')],
                &[(0, 8), (1, 6), (2, 6), (0, 11)],
                Differs(27),
            ),
        ],
    },
    Guest {
        program: MISALIGNED_STORE,
        log: &MISALIGNED_STORE_LOG,
        rows: &[
            (&[], &[(0, 9), (1, 7), (0, 9)], Has(&[])),
            (&[(52, b'C')], &[(0, 8), (1, 7), (0, 10)], Has(&[])),
            (
                &[(51, b'B'), (52, b'C')],
                &[(0, 5), (1, 7), (0, 13)],
                Has(&[]),
            ),
            (&[(51, b'B')], &[(0, 5), (1, 7), (0, 13)], Differs(21)),
        ],
    },
    Guest {
        program: STORE_CONDITIONAL_PAIRS,
        log: &STORE_CONDITIONAL_PAIRS_LOG,
        rows: &[
            (&[], &[(0, 8), (1, 8), (2, 8), (0, 17)], Has(&[])),
            // The second worker's store fails.
            (
                &[(31, 1), (100, b'1')],
                &[(0, 8), (2, 3), (1, 8), (2, 5), (0, 17)],
                Has(&[]),
            ),
            // The first worker's store fails.
            (
                &[(22, 1), (100, b'1')],
                &[(0, 8), (1, 3), (2, 6), (1, 5), (2, 2), (0, 17)],
                Has(&[]),
            ),
            (&[], &[(0, 8), (2, 3), (1, 8), (2, 5), (0, 17)], Differs(21)),
        ],
    },
    Guest {
        program: DIVIDE,
        log: &DIVIDE_LOG,
        rows: &[
            (&[], &[(0, 5), (1, 5), (0, 13)], Has(&[])),
            (&[(51, 0xfd)], &[(0, 8), (1, 5), (0, 10)], Has(&[])),
        ],
    },
    Guest {
        program: COMPUTED_ADDRESS,
        log: &COMPUTED_ADDRESS_LOG,
        rows: &[
            (&[], &[(0, 8), (1, 6), (0, 12)], Has(&[])),
            (&[(51, b'Z')], &[(0, 5), (1, 6), (0, 15)], Has(&[])),
        ],
    },
    Guest {
        program: RACING_FAULT,
        log: &RACING_FAULT_LOG,
        rows: &[
            (&[], &[(0, 5), (1, 5), (0, 4)], Has(&[])),
            // The log ends in another fault.
            (&[(45, 5)], &[(0, 5), (1, 5), (0, 4)], Differs(13)),
            (&[], &[(0, 8), (1, 5), (0, 1)], Differs(13)),
        ],
    },
    Guest {
        program: RACING_FAULT,
        log: &RACING_FAULT_CUT_LOG,
        rows: &[(&[], &[(0, 5), (1, 5), (0, 3)], Has(&[0]))],
    },
    Guest {
        program: DEADLOCK,
        log: &DEADLOCK_LOG,
        rows: &[
            (&[], &[(0, 9), (1, 4), (2, 4)], Has(&[])),
            (&[], &[(0, 9), (1, 4), (2, 4), (0, 1)], Differs(17)),
            (&[], &[(0, 9), (1, 4), (2, 4), (1, 1)], Differs(17)),
            (&[], &[(0, 9), (1, 4), (2, 4), (2, 1)], Differs(17)),
        ],
    },
    Guest {
        program: TAPE,
        log: &TAPE_LOG,
        rows: &[(&[], &[(0, 26)], Has(&[]))],
    },
    Guest {
        program: SEEDED_CUT,
        log: &SEEDED_CUT_LOG,
        rows: &[(&[], &[(0, 4), (1, 1), (0, 1)], Has(&[0, 1]))],
    },
    Guest {
        program: UNKNOWN_CALL,
        log: &UNKNOWN_CALL_LOG,
        rows: &[(&[], &[(0, 4)], Has(&[]))],
    },
    Guest {
        program: EIGHT_THREADS,
        log: &EIGHT_THREADS_LOG,
        rows: &[(
            &[],
            &[
                (0, 21),
                (1, 2),
                (2, 2),
                (3, 2),
                (4, 2),
                (5, 2),
                (6, 2),
                (7, 2),
            ],
            Has(&[]),
        )],
    },
    Guest {
        program: KEPT_LOCK,
        log: &KEPT_LOCK_LOG,
        rows: &[(&[], &[(0, 5), (1, 5), (0, 3)], Has(&[]))],
    },
    Guest {
        program: NO_CODE,
        log: &NO_CODE_LOG,
        rows: &[(&[], &[(0, 2)], Has(&[])), (&[], &[(0, 1)], Differs(1))],
    },
    Guest {
        program: BREAKPOINT,
        log: &BREAKPOINT_LOG,
        rows: &[(&[], &[(0, 2)], Has(&[]))],
    },
];

/// The programs, so that no proof about a loop over them reads the table.
fn guests() -> &'static [Guest] {
    &GUESTS
}

/// Steps of a schedule from its runs.
pub fn steps_of(alloc: Global, runs: &[(u8, usize)]) -> Result<Vec<u8>, AllocError> {
    let mut steps = Vec::new(alloc);
    for (thread, count) in runs {
        let longer = steps.len().saturating_add(*count);
        steps.resize(longer, *thread)?;
    }
    Ok(steps)
}

/// A run: both machines where it ends, and its events.
#[derive(Drop)]
pub struct Ran<'a> {
    pub machine: Machine<'a>,
    pub state: State,
    pub events: List<Event>,
}

/// The run of a schedule over an input, on both machines.
pub fn run<'a>(
    rt: &impl Abort,
    alloc: Global,
    image: &'a Image,
    input: Vec<u8>,
    schedule: &[u8],
) -> Result<Ran<'a>, Fail> {
    let tape = Bytes::from_slice(alloc, input.as_slice())?;
    let mut state = plain::opening(alloc, image, tape)?;
    let mut machine = Machine::load(alloc, image, input)?;
    let mut events = List::new(alloc);
    for thread in schedule {
        let before = state.core.threads.as_slice().get(*thread as usize);
        let at = before.map_or(0, |before| before.retired);
        let stepped = step_both(rt, alloc, image, &mut machine, state, *thread)?;
        events.push(Event {
            thread: *thread,
            at,
            note: stepped.note,
        })?;
        state = stepped.state;
    }
    Ok(Ran {
        machine,
        state,
        events,
    })
}

/// The threads that are enabled.
fn enabled_in(alloc: Global, image: &Image, state: &State) -> Result<Vec<u8>, Fail> {
    let mut threads = Vec::new(alloc);
    for thread in 0..=8 {
        if plain::enabled(alloc, image, state, thread)? {
            threads.push(thread)?;
        }
    }
    Ok(threads)
}

/// Compares the machine in place where a run ends with the run's log, and the threads that are enabled.
fn ends_as(rt: &impl Abort, machine: &Machine<'_>, log: &Log, enabled: &[u8]) {
    assert_eq!(rt; machine.end(), log.end);
    let mut list = [0; 8];
    let count = machine.enabled_list(&mut list);
    assert_eq!(rt; list.get(..count), Some(enabled));
    let threads = log.threads.as_slice();
    assert_eq!(rt; machine.threads() as usize, threads.len());
    for tid in 0..machine.threads() {
        let steps = threads.get(tid as usize).map(|thread| thread.steps);
        assert_eq!(rt; Some(machine.retired(tid)), steps, "thread {tid}");
    }
}

/// Runs a row's schedule, and compares what comes of it.
fn meets(rt: &impl Abort, alloc: Global, image: &Image, log: &[u8], row: Row) -> Result<(), Fail> {
    let (changes, runs, outcome) = row;
    let bytes = changed(alloc, log, changes)?;
    let log = read_log(alloc, bytes.as_slice())
        .ok()
        .ok_or("the bytes are a log")?;
    let schedule = steps_of(alloc, runs)?;
    assert!(rt; schedule.len() < 1000);
    let place = first_difference(alloc, image, &log, schedule.as_slice())?;
    match outcome {
        Differs(differs) => assert_eq!(rt; place, Some(differs), "{changes:?}, {runs:?}"),
        Has(enabled) => {
            assert_eq!(rt; place, None, "{changes:?}, {runs:?}");
            let ran = run(rt, alloc, image, tape(alloc, &log)?, schedule.as_slice())?;
            let made = log_of(alloc, &ran.state, ran.events.as_slice())?;
            assert!(rt; made.same(&log), "{made:?}");
            let threads = enabled_in(alloc, image, &ran.state)?;
            assert_eq!(rt; threads.as_slice(), enabled, "{changes:?}, {runs:?}");
            compare(rt, image, &ran.machine, &ran.state);
            ends_as(rt, &ran.machine, &log, enabled);
        }
    }
    Ok(())
}

/// The rows on one program.
fn meets_all(rt: &impl Abort, alloc: Global, guest: &Guest) -> Result<(), Fail> {
    let file = program_file(alloc, guest.program)?;
    let image = Image::read(alloc, file.as_slice())?;
    for row in guest.rows {
        meets(rt, alloc, &image, guest.log, *row)?;
    }
    Ok(())
}

#[test]
fn one_thread_opens_a_run(rt: HostRuntime) -> Result<(), Fail> {
    let alloc = rt.alloc();
    let image = Image::read(alloc, &HELLO_FILE)?;
    let tape = Bytes::from_slice(alloc, b"abc")?;
    let state = plain::opening(alloc, &image, tape)?;
    let mut registers = [0; 32];
    registers[2] = 0x7000_4000;
    let first = Thread {
        local: Local {
            pc: TEXT,
            registers,
        },
        reservation: None,
        retired: 0,
    };
    let threads = state.core.threads.as_slice();
    assert_eq!(rt; threads.len(), 1);
    assert!(rt; is_same(&threads[0], &first));
    assert_eq!(rt; state.core.calls.ended.as_slice(), [None].as_slice());
    assert_eq!(rt; state.core.calls.owners, [None; 32]);
    assert_eq!(rt; state.core.calls.tape.as_slice(), b"abc".as_slice());
    assert_eq!(rt; state.core.halt, None);
    Ok(())
}

#[test]
fn schedules_have_their_logs(rt: HostRuntime) -> Result<(), Fail> {
    let file = program_file(rt.alloc(), HELLO)?;
    assert_eq!(rt; file.as_slice(), HELLO_FILE.as_slice());
    for guest in guests() {
        meets_all(&rt, rt.alloc(), guest)?;
    }
    Ok(())
}
