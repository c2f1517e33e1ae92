//! What ends the reservation of another thread: a write to a byte of its word.

use crate::files::DATA;
use crate::stepping::{image_of, machine_of, step_of, thread_of};
use std::alloc::Global;
use std::process::Abort;
use std::test::Fail;

/// An instruction of thread 1, with its a0 to a2; whether thread 1 has reserved `DATA + 4`, before and after
/// it; and whether thread 0, which had, still has. There are two bytes of input, and a7 asks for a read.
type Row = (u32, [u32; 3], [bool; 2], bool);

static WRITES: [Row; 31] = [
    (0x00c5a023, [0, DATA + 4, 7], [true, true], false), // sw a2, 0(a1)
    (0x00c5a023, [0, DATA + 4, 7], [false, false], false), // sw a2, 0(a1)
    (0x00c5a023, [0, DATA, 7], [true, true], true), // sw a2, 0(a1)
    (0x00c5a023, [0, DATA + 8, 7], [true, true], true), // sw a2, 0(a1)
    (0x00c5a023, [0, DATA + 1, 7], [true, true], false), // sw a2, 0(a1)
    (0x00c5a023, [0, DATA + 7, 7], [true, true], false), // sw a2, 0(a1)
    (0x00c59023, [0, DATA + 2, 7], [true, true], true), // sh a2, 0(a1)
    (0x00c59023, [0, DATA + 3, 7], [true, true], false), // sh a2, 0(a1)
    (0x00c59023, [0, DATA + 7, 7], [true, true], false), // sh a2, 0(a1)
    (0x00c58023, [0, DATA + 3, 7], [true, true], true), // sb a2, 0(a1)
    (0x00c58023, [0, DATA + 4, 7], [true, true], false), // sb a2, 0(a1)
    (0x00c58023, [0, DATA + 7, 7], [true, true], false), // sb a2, 0(a1)
    (0x00c58023, [0, DATA + 8, 7], [true, true], true), // sb a2, 0(a1)
    (0x00c5a52f, [0, DATA + 4, 7], [true, true], false), // amoadd.w a0, a2, (a1)
    (0x4005a52f, [0, DATA + 4, 7], [true, true], false), // amoor.w a0, zero, (a1)
    (0x08c5a52f, [0, DATA, 7], [true, true], true), // amoswap.w a0, a2, (a1)
    (0x08c5a52f, [0, DATA + 8, 7], [true, true], true), // amoswap.w a0, a2, (a1)
    (0x18c5a52f, [0, DATA + 4, 7], [true, false], false), // sc.w a0, a2, (a1)
    (0x18c5a52f, [0, DATA + 4, 7], [false, false], true), // sc.w a0, a2, (a1)
    (0x18c5a52f, [0, DATA, 7], [true, false], true), // sc.w a0, a2, (a1)
    (0x1005a52f, [0, DATA + 4, 7], [false, true], true), // lr.w a0, (a1)
    (0x1005a52f, [0, DATA, 7], [true, false], true), // lr.w a0, (a1)
    (0x0005a503, [0, DATA + 4, 7], [true, true], true), // lw a0, 0(a1)
    (0x00000073, [DATA + 3, 2, 7], [true, true], false), // read(DATA + 3, 2)
    (0x00000073, [DATA + 2, 8, 7], [true, true], true), // read(DATA + 2, 8)
    (0x00000073, [DATA + 7, 1, 7], [true, true], false), // read(DATA + 7, 1)
    (0x00000073, [DATA + 8, 2, 7], [true, true], true), // read(DATA + 8, 2)
    (0x00000073, [DATA + 4, 0, 7], [true, true], true), // read(DATA + 4, 0)
    (0x00000073, [DATA + 4, 257, 7], [true, true], true), // read(DATA + 4, 257)
    (0x00000073, [DATA + 4, 16, 7], [true, true], true), // read(DATA + 4, 16)
    (0x0ff0000f, [0, DATA + 4, 7], [true, true], true), // fence
];

/// The rows, so that no proof about a loop over them reads the table.
fn writes() -> &'static [Row] {
    &WRITES
}

/// Takes the step of a row.
fn takes(rt: &impl Abort, alloc: Global, row: usize, write: Row) -> Result<(), Fail> {
    let reserved = Some(DATA + 4);
    let (word, arguments, [before, after], kept) = write;
    let image = image_of(alloc, word)?;
    let own = if before { reserved } else { None };
    let threads = [thread_of([0; 3], 0, reserved), thread_of(arguments, 9, own)];
    let state = machine_of(alloc, &threads, &[None; 2], b"ab")?;
    let stepped = step_of(rt, alloc, &image, state, 1)?;
    let threads = stepped.state.core.threads.as_slice();
    assert_eq!(rt; threads.len(), 2);
    assert_eq!(rt; threads[0].reservation == reserved, kept, "row {row}");
    assert_eq!(rt; threads[1].reservation == reserved, after, "row {row}");
    Ok(())
}

#[test]
fn writes_by_others_end_a_reservation(rt: HostRuntime) -> Result<(), Fail> {
    for (row, write) in writes().iter().enumerate() {
        takes(&rt, rt.alloc(), row, *write)?;
    }
    Ok(())
}
