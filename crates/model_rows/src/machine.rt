//! The machine in place beside the plain machine.

use crate::files::DATA;
use crate::stepping::{is_same, step_of};
use elf_image::image::Image;
use guest_machine::machine::Machine;
use guest_machine::note::Note;
use rv_model::state::{Local, Note as Shown, State, Stepped, Thread};
use std::alloc::Global;
use std::process::Abort;
use std::test::Fail;

/// Sixteen bytes below the tops of three stacks.
const STACK_ENDS: [u32; 3] = [0x7000_3ff0, 0x7001_3ff0, 0x7007_3ff0];

/// Whether a note is that of the plain machine.
fn is_same_note(note: &Note, shown: &Shown) -> bool {
    match (note, shown) {
        (Note::Nothing, Shown::Nothing) => true,
        (Note::Branch(taken), Shown::Branch(other)) => taken == other,
        (Note::Jump(target), Shown::Jump(other)) => target == other,
        (Note::Call(made), Shown::Called(call)) => made.notes(call),
        (Note::Fault(cause), Shown::Faulted(other)) => cause == other,
        _ => false,
    }
}

/// One step of a thread, which must be enabled, on both machines, which must note the same.
pub fn step_both(
    rt: &impl Abort,
    alloc: Global,
    image: &Image,
    machine: &mut Machine<'_>,
    state: State,
    thread: u8,
) -> Result<Stepped, Fail> {
    assert!(rt; machine.enabled(thread), "thread {thread} is enabled");
    assert!(rt; machine.retired(thread) < 1000);
    let note = machine.step(thread);
    let stepped = step_of(rt, alloc, image, state, thread)?;
    assert!(rt; is_same_note(&note, &stepped.note), "{note:?}");
    Ok(stepped)
}

/// The registers of a thread.
fn registers_of(rt: &impl Abort, machine: &Machine<'_>, tid: u8) -> [u32; 32] {
    let mut registers = [0; 32];
    for number in 0..32 {
        assert!(rt; tid < machine.threads());
        registers[number as usize] = machine.reg(tid, number);
    }
    registers
}

/// Compares the threads of both machines.
fn compare_threads(rt: &impl Abort, machine: &Machine<'_>, threads: &[Thread]) {
    assert_eq!(rt; machine.threads() as usize, threads.len());
    for tid in 0..machine.threads() {
        let Some(thread) = threads.get(tid as usize) else {
            return;
        };
        let local = Local {
            pc: machine.pc(tid),
            registers: registers_of(rt, machine, tid),
        };
        let made = Thread {
            local,
            reservation: thread.reservation,
            retired: machine.retired(tid),
        };
        assert!(rt; is_same(&made, thread), "{made:?}, {thread:?}");
    }
}

/// Compares the bytes from an address on.
fn compare_bytes(
    rt: &impl Abort,
    image: &Image,
    machine: &Machine<'_>,
    state: &State,
    (start, count): (u32, u32),
) {
    for offset in 0..count {
        let address = start.wrapping_add(offset);
        let first = image.opening(address).map(|cell| cell.byte);
        let byte = state.writes.newest(address).or(first);
        assert_eq!(rt; machine.byte(address), byte, "at {address}");
    }
}

/// Compares what both machines show: threads, owners, the first bytes of data and the ends of three stacks.
pub fn compare(rt: &impl Abort, image: &Image, machine: &Machine<'_>, state: &State) {
    compare_threads(rt, machine, state.core.threads.as_slice());
    for (mutex, owner) in state.core.calls.owners.iter().enumerate() {
        assert!(rt; mutex < 32);
        assert_eq!(rt; machine.owner(mutex as u8), *owner, "mutex {mutex}");
    }
    compare_bytes(rt, image, machine, state, (DATA, 260));
    for start in STACK_ENDS {
        compare_bytes(rt, image, machine, state, (start, 20));
    }
    assert_eq!(rt; machine.halted(), state.core.halt.is_some());
}
