//! Each guest call and its misuses, by the call table.

use crate::files::{DATA, TEXT};
use crate::stepping::{image_of, is_same, machine_of, step_of, thread_of};
use Effect::{Ends, Exits, Nothing, Owner, Spawns, Takes};
use elf_image::image::Image;
use odr_log::log::Call;
use odr_log::read_log;
use plain_machine::machine as plain;
use rv_model::state::{Core, Halt, Local, Note, State, Thread};
use std::alloc::Global;
use std::process::Abort;
use std::test::Fail;

const ECALL: u32 = 0x0000_0073;

/// The answer to a misused call.
const BAD: u32 = 0xffff_ffff;

/// The stack of thread 0.
const STACK: u32 = 0x7000_0000;

const TAPE: &[u8] = b"abcdef";

/// What a call does beside its answer.
#[derive(Clone, Copy)]
enum Effect {
    Nothing,
    /// Halts the machine.
    Exits(u32),
    /// Ends the thread with a value.
    Ends(u32),
    /// Makes thread 3, at an entry.
    Spawns(u32),
    /// A mutex has another owner.
    Owner(usize, Option<u8>),
    /// So many bytes go from the tape to memory.
    Takes(usize),
}

/// A call of thread 1: its number in a7, a0 and a1; a0 after it, its record in a log, and its effect.
/// Thread 0 goes on and holds mutex 0, thread 1 holds mutex 1, and thread 2 ended with 77.
type Row = (u32, u32, u32, u32, &'static [u8], Effect);

static CALLS: [Row; 51] = [
    (1, 7, 0, 7, &[1, 7, 0, 0, 0], Exits(7)),
    (2, 5, 0, 5, &[2], Ends(5)),
    (3, TEXT + 4, 99, 3, &[3, 4, 0, 1, 0, 3], Spawns(TEXT + 4)),
    (3, 8, 99, 3, &[3, 8, 0, 0, 0, 3], Spawns(8)),
    (3, TEXT + 2, 99, BAD, &[3, 2, 0, 1, 0, 255], Nothing),
    (3, BAD, 99, BAD, &[3, 255, 255, 255, 255, 255], Nothing),
    (4, 2, 0, 77, &[4, 2, 0, 0, 0, 1], Nothing),
    (4, 1, 0, BAD, &[4, 1, 0, 0, 0, 0], Nothing),
    (4, 3, 0, BAD, &[4, 3, 0, 0, 0, 0], Nothing),
    (4, 256, 0, BAD, &[4, 0, 1, 0, 0, 0], Nothing),
    (4, BAD, 0, BAD, &[4, 255, 255, 255, 255, 0], Nothing),
    (5, 2, 0, 0, &[5, 2, 0, 0, 0, 1], Owner(2, Some(1))),
    (5, 31, 0, 0, &[5, 31, 0, 0, 0, 1], Owner(31, Some(1))),
    (5, 1, 0, BAD, &[5, 1, 0, 0, 0, 0], Nothing),
    (5, 32, 0, BAD, &[5, 32, 0, 0, 0, 0], Nothing),
    (5, 256, 0, BAD, &[5, 0, 1, 0, 0, 0], Nothing),
    (5, BAD, 0, BAD, &[5, 255, 255, 255, 255, 0], Nothing),
    (6, 1, 0, 0, &[6, 1, 0, 0, 0, 1], Owner(1, None)),
    (6, 0, 0, BAD, &[6, 0, 0, 0, 0, 0], Nothing),
    (6, 2, 0, BAD, &[6, 2, 0, 0, 0, 0], Nothing),
    (6, 32, 0, BAD, &[6, 32, 0, 0, 0, 0], Nothing),
    (6, 257, 0, BAD, &[6, 1, 1, 0, 0, 0], Nothing),
    (7, 2, 0, 0, &[7, 2, 0, 0, 0, 1], Owner(2, Some(1))),
    (7, 1, 0, BAD, &[7, 1, 0, 0, 0, 0], Nothing),
    (7, 0, 0, BAD, &[7, 0, 0, 0, 0, 0], Nothing),
    (7, 32, 0, BAD, &[7, 32, 0, 0, 0, 0], Nothing),
    (7, 258, 0, BAD, &[7, 2, 1, 0, 0, 0], Nothing),
    (8, DATA + 1, 3, 3, &[8, 3, 0, 0x7f, 0xff, 0], Nothing),
    (8, DATA + 15, 2, 2, &[8, 2, 0, 0xff, 0x11], Nothing),
    (8, TEXT, 4, 4, &[8, 4, 0, 0x73, 0, 0, 0], Nothing),
    (8, STACK, 1, 1, &[8, 1, 0, 0], Nothing),
    (8, 0, 0, 0, &[8, 0, 0], Nothing),
    (8, DATA + 22, 3, BAD, &[12], Nothing),
    (8, DATA + 256, 1, BAD, &[12], Nothing),
    (8, STACK, 257, BAD, &[12], Nothing),
    (8, BAD, 2, BAD, &[12], Nothing),
    (8, STACK, BAD, BAD, &[12], Nothing),
    (9, DATA + 1, 2, 2, &[9, 2, 0, 0, 0, 2, 0, 97, 98], Takes(2)),
    (9, DATA + 256, 1, 1, &[9, 1, 0, 0, 0, 1, 0, 97], Takes(1)),
    (9, 0, 0, 0, &[9, 0, 0, 0, 0, 0, 0], Takes(0)),
    (9, STACK, 256, 6, &SIX_READ, Takes(6)),
    (9, STACK, 257, BAD, &[13], Nothing),
    (9, STACK, BAD, BAD, &[13], Nothing),
    (9, STACK + 16380, 8, BAD, &[13], Nothing),
    (9, DATA + 15, 2, BAD, &[13], Nothing),
    (9, TEXT, 1, BAD, &[13], Nothing),
    (10, 9, 0, 1, &[10], Nothing),
    (11, 9, 0, 0, &[11], Nothing),
    (0, 9, 0, BAD, &[14, 0, 0, 0, 0], Nothing),
    (12, 9, 0, BAD, &[14, 12, 0, 0, 0], Nothing),
    (BAD, 9, 0, BAD, &[14, 255, 255, 255, 255], Nothing),
];

/// The record of a read of 256 bytes that gets all six of the tape.
const SIX_READ: [u8; 13] = [9, 0, 1, 0, 0, 6, 0, 97, 98, 99, 100, 101, 102];

/// Whether thread 1 waits at a call: its number in a7, and a0.
static WAITS: [(u32, u32, bool); 8] = [
    (4, 0, true),
    (4, 1, false),
    (4, 2, false),
    (4, 3, false),
    (5, 0, true),
    (5, 1, false),
    (5, 2, false),
    (7, 0, false),
];

/// The rows, so that no proof about a loop over them reads the table.
fn calls() -> &'static [Row] {
    &CALLS
}

fn waits() -> &'static [(u32, u32, bool)] {
    &WAITS
}

/// Thread 1 before a call.
fn caller_at(call: u32, a0: u32, a1: u32) -> Thread {
    thread_of([a0, a1, 12], call, Some(DATA + 8))
}

/// Thread 3 where it was made: its stack's top, the caller's gp and its argument, 99.
fn child_at(entry: u32) -> Thread {
    let mut registers = [0; 32];
    registers[2] = 0x7003_4000;
    registers[3] = 0x0303_0303;
    registers[10] = 99;
    Thread {
        local: Local {
            pc: entry,
            registers,
        },
        reservation: None,
        retired: 0,
    }
}

/// The machine before a call.
fn machine_at(alloc: Global, call: u32, a0: u32, a1: u32) -> Result<State, Fail> {
    let other = thread_of([0; 3], 0, None);
    let threads = [other, caller_at(call, a0, a1), other];
    let mut state = machine_of(alloc, &threads, &[None, None, Some(77)], TAPE)?;
    state.core.calls.owners[0] = Some(0);
    state.core.calls.owners[1] = Some(1);
    Ok(state)
}

/// Whether a call is the one that a record spells.
fn is_call(alloc: Global, call: &Call, record: &[u8]) -> Result<bool, Fail> {
    let mut bytes = [0u8; 23];
    bytes[..6].copy_from_slice(b"ODRL\x01\x01");
    bytes[14] = 1;
    let mut bytes = bytes.to_vec(alloc)?;
    bytes.extend_from_slice(record)?;
    bytes.push(0)?;
    let log = read_log(alloc, bytes.as_slice())
        .ok()
        .ok_or("the record of a call")?;
    match log.calls.as_slice() {
        [made] => Ok(made.call.same(call)),
        _ => Ok(false),
    }
}

/// Compares the shared state after a call with the call's effect.
fn compare_shared(rt: &impl Abort, row: usize, effect: Effect, core: &Core) {
    let halt = match effect {
        Exits(code) => Some(Halt::Exited { tid: 1, code }),
        _ => None,
    };
    assert_eq!(rt; core.halt, halt, "row {row}");
    let mut owners = [None; 32];
    owners[0] = Some(0);
    owners[1] = Some(1);
    if let Owner(mutex, owner) = effect
        && mutex < 32
    {
        owners[mutex] = owner;
    }
    assert_eq!(rt; core.calls.owners, owners, "row {row}");
    let ended = core.calls.ended.as_slice();
    let value = match effect {
        Ends(value) => Some(value),
        _ => None,
    };
    match effect {
        Spawns(_) => assert_eq!(rt;
            ended,
            [None, value, Some(77), None].as_slice(),
            "row {row}"
        ),
        _ => assert_eq!(rt; ended, [None, value, Some(77)].as_slice(), "row {row}"),
    }
}

/// Compares the rest of the tape, and the bytes from a0 on that were written.
fn compare_tape(rt: &impl Abort, row: usize, a0: u32, effect: Effect, state: &State) {
    let taken = match effect {
        Takes(count) => count.min(6),
        _ => 0,
    };
    assert_eq!(rt;
        state.core.calls.tape.as_slice(),
        &TAPE[taken..],
        "row {row}"
    );
    for offset in 0..16 {
        let newest = state.writes.newest(a0.wrapping_add(offset as u32));
        assert_eq!(rt; newest, TAPE[..taken].get(offset).copied(), "row {row}");
    }
}

/// Compares the threads after a call with those before it, where the caller gets an answer.
fn compare_threads(rt: &impl Abort, row: usize, caller: Thread, effect: Effect, after: &[Thread]) {
    let other = thread_of([0; 3], 0, None);
    match (after, effect) {
        ([first, second, third, child], Spawns(entry)) => {
            assert!(rt; is_same(first, &other), "row {row}");
            assert!(rt; is_same(second, &caller), "row {row}");
            assert!(rt; is_same(third, &other), "row {row}");
            assert!(rt; is_same(child, &child_at(entry)), "row {row}");
        }
        ([first, second, third], _) => {
            assert!(rt; is_same(first, &other), "row {row}");
            assert!(rt; is_same(second, &caller), "row {row}");
            assert!(rt; is_same(third, &other), "row {row}");
        }
        _ => assert!(rt; false, "row {row}"),
    }
}

/// Whether a step's note is the call that a record spells.
fn is_noted(alloc: Global, note: &Note, record: &[u8]) -> Result<bool, Fail> {
    match note {
        Note::Called(made) => is_call(alloc, made, record),
        _ => Ok(false),
    }
}

/// The caller after a call with this answer.
fn caller_after(call: u32, a0: u32, a1: u32, answer: u32) -> Thread {
    let mut caller = caller_at(call, a0, a1);
    caller.local.pc = TEXT + 4;
    caller.local.registers[10] = answer;
    caller.retired = 1;
    caller
}

/// Makes the call of a row.
fn makes(rt: &impl Abort, alloc: Global, image: &Image, row: usize, made: Row) -> Result<(), Fail> {
    let (call, a0, a1, answer, record, effect) = made;
    let state = machine_at(alloc, call, a0, a1)?;
    let stepped = step_of(rt, alloc, image, state, 1)?;
    assert!(rt; is_noted(alloc, &stepped.note, record)?, "row {row}");
    let caller = caller_after(call, a0, a1, answer);
    let threads = stepped.state.core.threads.as_slice();
    compare_threads(rt, row, caller, effect, threads);
    compare_shared(rt, row, effect, &stepped.state.core);
    compare_tape(rt, row, a0, effect, &stepped.state);
    Ok(())
}

#[test]
fn calls_are_answered_by_the_table(rt: HostRuntime) -> Result<(), Fail> {
    let image = image_of(rt.alloc(), ECALL)?;
    for (row, made) in calls().iter().enumerate() {
        makes(&rt, rt.alloc(), &image, row, *made)?;
    }
    Ok(())
}

#[test]
fn locks_and_joins_wait(rt: HostRuntime) -> Result<(), Fail> {
    let alloc = rt.alloc();
    let image = image_of(alloc, ECALL)?;
    for (call, a0, waits) in waits() {
        let state = machine_at(alloc, *call, *a0, 0)?;
        assert_eq!(rt;
            plain::enabled(alloc, &image, &state, 1)?,
            !*waits,
            "call {call} of {a0}"
        );
    }
    Ok(())
}
