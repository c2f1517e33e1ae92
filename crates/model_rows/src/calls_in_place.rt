//! The guest calls in place, one after the other on one state.

use elf_image::image::Image;
use guest_calls::call::{After, CallArgs, CallDone};
use guest_calls::call_state::CallState;
use guest_mem::guest_memory::GuestMem;
use guest_programs::logs::HELLO_FILE;
use odr_list::bytes::Bytes;
use odr_log::log::Call;
use std::test::Fail;

const EXIT: u32 = 1;

const END: u32 = 2;

const SPAWN: u32 = 3;

const JOIN: u32 = 4;

const LOCK: u32 = 5;

const UNLOCK: u32 = 6;

const TRYLOCK: u32 = 7;

const WRITE: u32 = 8;

const READ: u32 = 9;

const SELF: u32 = 10;

const YIELD: u32 = 11;

/// The answer to a misused call.
const MISUSED: Option<u32> = Some(u32::MAX);

/// A thread, the number and first argument of its call, and a0 after it; none where the thread has ended or waits.
type OfThread = (u8, u32, u32, Option<u32>);

static THREADS: [OfThread; 35] = [
    (1, SELF, 0, None),
    (0, SPAWN, 0x1_0002, MISUSED),
    (0, SPAWN, 0x1_0000, Some(1)),
    (0, SPAWN, 0x1_0000, Some(2)),
    (2, SPAWN, 0, Some(3)),
    (0, SPAWN, 0x1_0000, Some(4)),
    (0, SPAWN, 0x1_0000, Some(5)),
    (0, SPAWN, 0x1_0000, Some(6)),
    (0, SPAWN, 0x1_0000, Some(7)),
    (0, SPAWN, 0x1_0000, MISUSED),
    (0, JOIN, 0, MISUSED),
    (0, JOIN, 8, MISUSED),
    (0, JOIN, 1, None),
    (0, LOCK, 32, MISUSED),
    (0, LOCK, 31, Some(0)),
    (0, LOCK, 31, MISUSED),
    (1, LOCK, 31, None),
    (1, TRYLOCK, 31, MISUSED),
    (1, UNLOCK, 31, MISUSED),
    (1, TRYLOCK, 30, Some(0)),
    (1, TRYLOCK, 30, MISUSED),
    (1, END, 77, Some(77)),
    (1, SELF, 0, None),
    (0, JOIN, 1, Some(77)),
    (2, JOIN, 1, Some(77)),
    (0, LOCK, 30, None),
    (0, TRYLOCK, 30, MISUSED),
    (0, UNLOCK, 31, Some(0)),
    (0, UNLOCK, 31, MISUSED),
    (2, LOCK, 31, Some(0)),
    (3, SELF, 9, Some(3)),
    (0, YIELD, 9, Some(0)),
    (0, 12, 9, MISUSED),
    (0, 0, 9, MISUSED),
    (0, EXIT, 5, Some(5)),
];

/// The number and arguments of a call of thread 0, and a0 after it. There are three bytes of input.
type OfBuffer = (u32, u32, u32, Option<u32>);

static BUFFERS: [OfBuffer; 12] = [
    (WRITE, 0x7000_0000, 256, Some(256)),
    (WRITE, 0x7000_0000, 257, MISUSED),
    (WRITE, 0, 0, Some(0)),
    (WRITE, 0, 1, MISUSED),
    (WRITE, 0x1_0000, 33, MISUSED),
    (READ, 0x1_0000, 1, MISUSED),
    (READ, 0x7000_0000, 257, MISUSED),
    (READ, 0, 0, Some(0)),
    (READ, 0x10_0000, 2, Some(2)),
    (READ, 0x7000_3fff, 2, MISUSED),
    (READ, 0x7000_0000, 256, Some(1)),
    (READ, 0x7000_0000, 4, Some(0)),
];

/// The rows, so that no proof about a loop over them reads the tables.
fn of_threads() -> &'static [OfThread] {
    &THREADS
}

fn of_buffers() -> &'static [OfBuffer] {
    &BUFFERS
}

/// The call of a thread, none where it has ended or is blocked.
fn call(
    state: &mut CallState,
    memory: &mut GuestMem,
    tid: u8,
    number: u32,
    a0: u32,
    a1: u32,
) -> Option<CallDone> {
    let args = CallArgs { number, a0, a1 };
    if !state.is_live(tid) {
        return None;
    }
    if state.blocked(tid, args) {
        return None;
    }
    Some(state.apply(tid, args, memory))
}

#[test]
fn threads_and_mutexes_answer_by_the_table(rt: HostRuntime) -> Result<(), Fail> {
    let image = Image::read(rt.alloc(), &HELLO_FILE)?;
    let mut memory = GuestMem::load(rt.alloc(), &image)?;
    let mut state = CallState::new(rt.alloc(), Vec::new(rt.alloc()));
    for (tid, number, a0, answer) in of_threads() {
        let answered = call(&mut state, &mut memory, *tid, *number, *a0, 0).map(|done| done.a0);
        assert_eq!(rt;
            answered,
            *answer,
            "call {number} of thread {tid} with {a0}"
        );
    }
    Ok(())
}

#[test]
fn buffers_answer_by_their_rights_and_the_tape(rt: HostRuntime) -> Result<(), Fail> {
    let image = Image::read(rt.alloc(), &HELLO_FILE)?;
    let mut memory = GuestMem::load(rt.alloc(), &image)?;
    let mut state = CallState::new(rt.alloc(), Vec::from_slice(rt.alloc(), b"abc")?);
    for (number, address, len, answer) in of_buffers() {
        let answered = call(&mut state, &mut memory, 0, *number, *address, *len).map(
            |done| done.a0,
        );
        assert_eq!(rt; answered, *answer, "call {number} at {address} of {len}");
    }
    for (address, byte) in [
        (0x10_0000, Some(b'a')),
        (0x10_0001, Some(b'b')),
        (0x10_0002, Some(b'\n')),
        (0x7000_0000, Some(b'c')),
        (0x7000_0001, Some(0)),
    ] {
        assert_eq!(rt; memory.byte(address), byte, "at {address}");
    }
    Ok(())
}

#[test]
fn a_note_becomes_its_record(rt: HostRuntime) -> Result<(), Fail> {
    let image = Image::read(rt.alloc(), &HELLO_FILE)?;
    let mut memory = GuestMem::load(rt.alloc(), &image)?;
    let mut state = CallState::new(rt.alloc(), Vec::new(rt.alloc()));
    let hi = Call::Write {
        bytes: Bytes::from_slice(rt.alloc(), b"hi\n")?,
    };
    let spawned = Call::Spawn {
        entry: 0x1_0000,
        child: Some(1),
    };
    for (number, a0, a1, record, after) in [
        (WRITE, 0x10_0000, 3, &hi, After::Goes),
        (
            SPAWN,
            0x1_0000,
            3,
            &spawned,
            After::Spawned {
                child: 1,
                entry: 0x1_0000,
                arg: 3,
            },
        ),
        (END, 0, 0, &Call::EndThread, After::Ended),
    ] {
        let Some(done) = call(&mut state, &mut memory, 0, number, a0, a1) else {
            panic!(rt; "call {number} was not made");
        };
        assert!(rt; done.note.notes(record));
        assert_eq!(rt; &done.note.to_call(rt.alloc())?, record);
        assert_eq!(rt; done.after, after);
    }
    Ok(())
}
