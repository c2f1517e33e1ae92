//! Machines that the tests make, and their steps.

use crate::files::{DATA, TEXT, file_of};
use elf_image::image::Image;
use odr_list::bytes::Bytes;
use odr_list::list::List;
use plain_machine::machine as plain;
use rv_model::state::{Calls, Core, Local, State, Stepped, Thread};
use rv_model::writes::Writes;
use std::alloc::Global;
use std::process::Abort;
use std::test::Fail;

/// The bytes from `DATA` on, which may be read and written.
const CELLS: [u8; 16] = [
    0x80, 0x7f, 0xff, 0x00, 0x00, 0x00, 0x00, 0x80, 0xff, 0xff, 0xff, 0x7f, 0xff, 0xff, 0xff, 0xff,
];

/// The bytes after them, which may only be read.
const FIXED: [u8; 8] = [0x11, 0x22, 0x33, 0x44, 0x55, 0x66, 0x77, 0x88];

/// An image with one instruction, at `TEXT`. At `DATA + 256` stand four zeros that may only be written.
pub fn image_of(alloc: Global, word: u32) -> Result<Image, Fail> {
    let file = file_of(
        alloc,
        &[
            (TEXT, 5, &word.to_le_bytes()),
            (DATA, 6, &CELLS),
            (DATA + 16, 4, &FIXED),
            (DATA + 256, 2, &[0; 4]),
        ],
    )?;
    Ok(Image::read(alloc, file.as_slice())?)
}

/// A thread at `TEXT` with these values of a0 to a2 and of a7, and others in the other registers.
pub fn thread_of(arguments: [u32; 3], call: u32, reservation: Option<u32>) -> Thread {
    let mut registers = [0; 32];
    for (number, register) in registers.iter_mut().enumerate() {
        *register = number as u32 * 0x0101_0101;
    }
    registers[10..13].copy_from_slice(&arguments);
    registers[17] = call;
    Thread {
        local: Local {
            pc: TEXT,
            registers,
        },
        reservation,
        retired: 0,
    }
}

/// A machine with these threads, some of which have ended, where every mutex is free.
pub fn machine_of(
    alloc: Global,
    threads: &[Thread],
    ended: &[Option<u32>],
    tape: &[u8],
) -> Result<State, Fail> {
    Ok(State {
        core: Core {
            threads: List::of(threads.to_vec(alloc)?),
            calls: Calls {
                ended: List::of(ended.to_vec(alloc)?),
                owners: [None; 32],
                tape: Bytes::from_slice(alloc, tape)?,
            },
            halt: None,
        },
        writes: Writes::new(alloc),
    })
}

/// One step of a thread, which must be enabled.
pub fn step_of(
    rt: &impl Abort,
    alloc: Global,
    image: &Image,
    state: State,
    thread: u8,
) -> Result<Stepped, Fail> {
    assert!(rt;
        plain::enabled(alloc, image, &state, thread)?,
        "thread {thread} is enabled"
    );
    let retired = state.core.threads.as_slice()[thread as usize].retired;
    assert!(rt; retired < 1000);
    Ok(plain::step(alloc, image, state, thread)?)
}

/// Whether two threads are the same.
pub fn is_same(one: &Thread, other: &Thread) -> bool {
    one.local.pc == other.local.pc
        && one.local.registers == other.local.registers
        && one.reservation == other.reservation
        && one.retired == other.retired
}
