//! Small programs on the machine in place, beside the plain machine: one thread at the edges of memory and of the
//! calls, and two threads of which one has reserved a word. The words are those of an assembler; what they do was
//! worked out from the RISC-V unprivileged ISA, "RV32I" and the extension A, and from the call table.

use crate::files::{DATA, TEXT, file_of};
use crate::machine::compare;
use crate::runs::{run, steps_of};
use elf_image::image::Image;
use guest_machine::machine::Machine;
use odr_log::log::Cause::{AmoFault, LoadFault, StoreFault};
use odr_log::log::{Cause, End};
use std::alloc::Global;
use std::process::Abort;
use std::test::Fail;

const ECALL: u32 = 0x0000_0073;

/// The answer to a misused call, and minus one.
const BAD: u32 = 0xffff_ffff;

/// The eight bytes at `DATA`, as a number whose low byte comes first.
const CELLS: u64 = 0x0807_0605_0403_0201;

/// Sets a1 to `DATA` and a2 to minus one.
const FRONT: [u32; 2] = [
    0x001005b7, // lui a1, 0x100
    0xfff00613, // addi a2, zero, -1
];

/// Instructions after `FRONT`; a0 after them; the fault of the last; and the bytes at `DATA`. There are two bytes
/// of input.
type Alone = (&'static [u32], u32, Option<Cause>, u64);

static ALONE: [Alone; 29] = [
    (&[0x0045a503], 0x0807_0605, None, CELLS), // lw a0, 4(a1)
    (&[0x0035a503], 0x0706_0504, None, CELLS), // lw a0, 3(a1)
    (&[0x0055a503], 0, Some(LoadFault), CELLS), // lw a0, 5(a1)
    (&[0x00759503], 0, Some(LoadFault), CELLS), // lh a0, 7(a1)
    (&[0x0075c503], 8, None, CELLS), // lbu a0, 7(a1)
    (&[0xfff5a503], 0, Some(LoadFault), CELLS), // lw a0, -1(a1)
    (&[0x00c5a1a3], 0, None, 0x08ff_ffff_ff03_0201), // sw a2, 3(a1)
    (&[0x00c5a2a3], 0, Some(StoreFault), CELLS), // sw a2, 5(a1)
    (&[0x00c593a3], 0, Some(StoreFault), CELLS), // sh a2, 7(a1)
    (&[0xfec5afa3], 0, Some(StoreFault), CELLS), // sw a2, -1(a1)
    (&[0xffe02503], 0, Some(LoadFault), CELLS), // lw a0, -2(zero)
    (&[0xfec02f23], 0, Some(StoreFault), CELLS), // sw a2, -2(zero)
    (&[0xfec12e23, 0xffc12503], BAD, None, CELLS), // sw a2, -4(sp); lw a0, -4(sp)
    (&[0xfec12f23], 0, Some(StoreFault), CELLS), // sw a2, -2(sp)
    (&[0xffe12503], 0, Some(LoadFault), CELLS), // lw a0, -2(sp)
    (&[0x00858593, 0x00c5a52f], 0, Some(AmoFault), CELLS), // addi a1, a1, 8; amoadd.w a0, a2, (a1)
    (&[0x00058513, 0x00800593, 0x00800893, ECALL], 8, None, CELLS), // write(DATA, 8)
    (
        &[0x00058513, 0x00900593, 0x00800893, ECALL],
        BAD,
        None,
        CELLS,
    ), // write(DATA, 9)
    (&[0xfff00513, 0x00000593, 0x00800893, ECALL], 0, None, CELLS), // write(-1, 0)
    (
        &[0xf0010513, 0x10000593, 0x00800893, ECALL],
        256,
        None,
        CELLS,
    ), // write(sp - 256, 256)
    (
        &[0xe0010513, 0x10100593, 0x00800893, ECALL],
        BAD,
        None,
        CELLS,
    ), // write(sp - 512, 257)
    (&[0xfff00513, 0x00000593, 0x00900893, ECALL], 0, None, CELLS), // read(-1, 0)
    (&[0xf0010513, 0x10000593, 0x00900893, ECALL], 2, None, CELLS), // read(sp - 256, 256)
    (
        &[0xe0010513, 0x10100593, 0x00900893, ECALL],
        BAD,
        None,
        CELLS,
    ), // read(sp - 512, 257)
    // read(DATA + 6, 2)
    (
        &[0x00658513, 0x00200593, 0x00900893, ECALL],
        2,
        None,
        0x6261_0605_0403_0201,
    ),
    (
        &[0x00658513, 0x00300593, 0x00900893, ECALL],
        BAD,
        None,
        CELLS,
    ), // read(DATA + 6, 3)
    (&[0x00000513, 0x00400893, ECALL], BAD, None, CELLS), // join(0)
    (&[0x00100513, 0x00400893, ECALL], BAD, None, CELLS), // join(1)
    // lock(0); lock(0)
    (
        &[0x00000513, 0x00500893, ECALL, 0x00000513, ECALL],
        BAD,
        None,
        CELLS,
    ),
];

/// Thread 0 makes thread 1, which begins at `TEXT + 96`, and reserves the word at `DATA + 4`.
const RESERVES: [u32; 7] = [
    0x00010537, // lui a0, 0x10
    0x06050513, // addi a0, a0, 96
    0x00300893, // addi a7, zero, 3
    ECALL, 0x001005b7, // lui a1, 0x100
    0x00458593, // addi a1, a1, 4
    0x1005a62f, // lr.w a2, (a1)
];

/// Stores a1 in the reserved word, and sets a3 to 0; else sets it to 1.
const CONDITIONAL: u32 = 0x18b5a6af; // sc.w a3, a1, (a1)

/// Thread 1 sets a1 to `DATA + 4`.
const AIMS: [u32; 2] = [
    0x001005b7, // lui a1, 0x100
    0x00458593, // addi a1, a1, 4
];

/// What thread 0 and then what thread 1 does after thread 0 reserved the word, and whether thread 0 then stores in
/// it. There are two bytes of input.
type Reserved = (&'static [u32], &'static [u32], bool);

static RESERVED: [Reserved; 19] = [
    (&[], &[], true),
    (&[0x0005a023], &[], true), // sw zero, 0(a1)
    (&[0x0005a52f], &[], true), // amoadd.w a0, zero, (a1)
    (&[0x18a5a52f], &[], false), // sc.w a0, a0, (a1)
    (&[0xffc58513, 0x1005262f], &[], false), // addi a0, a1, -4; lr.w a2, (a0)
    (&[], &[0x0005a023], false), // sw zero, 0(a1)
    (&[], &[0xfe05ae23], true), // sw zero, -4(a1)
    (&[], &[0x0005a223], true), // sw zero, 4(a1)
    (&[], &[0xfe058fa3], true), // sb zero, -1(a1)
    (&[], &[0x00058223], true), // sb zero, 4(a1)
    (&[], &[0x000581a3], false), // sb zero, 3(a1)
    (&[], &[0xfe059fa3], false), // sh zero, -1(a1)
    (&[], &[0x0005a52f], false), // amoadd.w a0, zero, (a1)
    (&[], &[0x1005a52f, 0x18a5a52f], false), // lr.w a0, (a1); sc.w a0, a0, (a1)
    (&[], &[0x18a5a52f], true), // sc.w a0, a0, (a1)
    (&[], &[0x1005a52f], true), // lr.w a0, (a1)
    (&[], &[0x0005a503], true), // lw a0, 0(a1)
    (&[], &[0x00358513, 0x00100593, 0x00900893, ECALL], false), // read(DATA + 7, 1)
    (&[], &[0x00458513, 0x00200593, 0x00900893, ECALL], true), // read(DATA + 8, 2)
];

/// The rows, so that no proof about a loop over them reads the tables.
fn alone() -> &'static [Alone] {
    &ALONE
}

fn reserved() -> &'static [Reserved] {
    &RESERVED
}

/// An image with these instructions at `TEXT` and these bytes at `DATA`.
fn image_with(alloc: Global, words: &[u32], data: &[u8]) -> Result<Image, Fail> {
    let mut text = Vec::new(alloc);
    for word in words {
        text.extend_from_slice(&word.to_le_bytes())?;
    }
    let file = file_of(alloc, &[(TEXT, 5, text.as_slice()), (DATA, 6, data)])?;
    Ok(Image::read(alloc, file.as_slice())?)
}

/// The eight bytes at `DATA`.
fn cells(machine: &Machine<'_>) -> u64 {
    let mut bytes = [0; 8];
    for (place, byte) in bytes.iter_mut().enumerate() {
        *byte = machine.byte(DATA + place as u32).unwrap_or(0);
    }
    u64::from_le_bytes(bytes)
}

/// The end of a run whose last step may have faulted.
fn end_of(cause: Option<Cause>) -> End {
    match cause {
        None => End::Cut,
        Some(cause) => End::Faulted { tid: 0, cause },
    }
}

/// Runs the one thread of a row.
fn runs_alone(rt: &impl Abort, alloc: Global, row: usize, alone: Alone) -> Result<(), Fail> {
    let (words, a0, cause, data) = alone;
    let mut text = FRONT.to_vec(alloc)?;
    text.extend_from_slice(words)?;
    let image = image_with(alloc, text.as_slice(), &CELLS.to_le_bytes())?;
    let schedule = steps_of(alloc, &[(0, text.len())])?;
    let tape = b"ab".to_vec(alloc)?;
    let ran = run(rt, alloc, &image, tape, schedule.as_slice())?;
    compare(rt, &image, &ran.machine, &ran.state);
    assert!(rt; ran.machine.threads() == 1);
    assert_eq!(rt; ran.machine.reg(0, 10), a0, "row {row}");
    assert_eq!(rt; ran.machine.end(), end_of(cause), "row {row}");
    assert_eq!(rt; cells(&ran.machine), data, "row {row}");
    Ok(())
}

#[test]
fn one_thread_at_the_edges(rt: HostRuntime) -> Result<(), Fail> {
    for (row, run) in alone().iter().enumerate() {
        runs_alone(&rt, rt.alloc(), row, *run)?;
    }
    Ok(())
}

/// The instructions of both threads of a row.
fn both_texts(alloc: Global, own: &[u32], other: &[u32]) -> Result<Vec<u32>, Fail> {
    let mut text = RESERVES.to_vec(alloc)?;
    text.extend_from_slice(own)?;
    text.push(CONDITIONAL)?;
    text.resize(24, 0)?;
    text.extend_from_slice(&AIMS)?;
    text.extend_from_slice(other)?;
    Ok(text)
}

/// Runs both threads of a row.
fn runs_both(rt: &impl Abort, alloc: Global, row: usize, both: Reserved) -> Result<(), Fail> {
    let (own, other, stores) = both;
    let text = both_texts(alloc, own, other)?;
    let image = image_with(alloc, text.as_slice(), &[0; 16])?;
    let longer = other.len().saturating_add(2);
    let runs = [(0, 7), (1, longer), (0, own.len().saturating_add(1))];
    let schedule = steps_of(alloc, &runs)?;
    let tape = b"ab".to_vec(alloc)?;
    let ran = run(rt, alloc, &image, tape, schedule.as_slice())?;
    compare(rt, &image, &ran.machine, &ran.state);
    assert!(rt; ran.machine.threads() == 2);
    let failed = u32::from(!stores);
    assert_eq!(rt; ran.machine.reg(0, 13), failed, "row {row}");
    let stored = cells(&ran.machine) >> 32 == u64::from(DATA + 4);
    assert_eq!(rt; stored, stores, "row {row}");
    Ok(())
}

#[test]
fn writes_by_another_thread_end_a_reservation(rt: HostRuntime) -> Result<(), Fail> {
    for (row, both) in reserved().iter().enumerate() {
        runs_both(&rt, rt.alloc(), row, *both)?;
    }
    Ok(())
}
