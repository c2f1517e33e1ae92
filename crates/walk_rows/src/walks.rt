//! Programs and logs, and the walk or the fault that comes of them.

ghost use Rattle.trace_path.specs.Traced.{IsTraced};

use elf_image::image::Image;
use odr_list::bytes::Bytes;
use odr_list::list::List;
use odr_log::log::{Call, CallRec, Cause, End, Log, PathItem, Pos, ThreadLog};
use std::alloc::Global;
use std::process::Abort;
use std::test::Fail;
use trace_path::Traces;

/// The headers of a program whose code is all that it has, at 0x10000; the sizes at 68 and 72 are still 0.
const HEADERS: [u8; 84] = [
    0x7f, 0x45, 0x4c, 0x46, 0x01, 0x01, 0x01, 0x00, 0x00, 0x00, 0x00, 0x00, 0x00, 0x00, 0x00, 0x00,
    0x02, 0x00, 0xf3, 0x00, 0x01, 0x00, 0x00, 0x00, 0x00, 0x00, 0x01, 0x00, 0x34, 0x00, 0x00, 0x00,
    0x00, 0x00, 0x00, 0x00, 0x00, 0x00, 0x00, 0x00, 0x34, 0x00, 0x20, 0x00, 0x01, 0x00, 0x00, 0x00,
    0x00, 0x00, 0x00, 0x00, 0x01, 0x00, 0x00, 0x00, 0x54, 0x00, 0x00, 0x00, 0x00, 0x00, 0x01, 0x00,
    0x00, 0x00, 0x01, 0x00, 0x00, 0x00, 0x00, 0x00, 0x00, 0x00, 0x00, 0x00, 0x05, 0x00, 0x00, 0x00,
    0x04, 0x00, 0x00, 0x00,
];

const ADDI: u32 = 0x0010_0093;

const JAL_8: u32 = 0x0080_006f;

const JAL_6: u32 = 0x0060_006f;

const JALR: u32 = 0x0000_8067;

const BEQ_8: u32 = 0x0000_0463;

const BEQ_6: u32 = 0x0000_0363;

const ECALL: u32 = 0x0000_0073;

const EBREAK: u32 = 0x0010_0073;

const LW: u32 = 0x0000_a103;

const SW: u32 = 0x0020_a023;

const LR: u32 = 0x1000_a12f;

const SC: u32 = 0x1820_a1af;

const AMOADD: u32 = 0x0020_a1af;

const NONE: u32 = 0;

/// The image of a program with this code.
fn image_of(alloc: Global, words: &[u32]) -> Result<Image, Fail> {
    let mut file = HEADERS.to_vec(alloc)?;
    for word in words {
        for byte in word.to_le_bytes() {
            file.push(byte)?;
        }
    }
    let size = ((words.len() % 64) * 4) as u8;
    if file.len() > 72 {
        file[68] = size;
        file[72] = size;
    }
    Ok(Image::read(alloc, file.as_slice())?)
}

/// A call without its thread and step.
#[derive(Clone, Copy)]
enum Made {
    Exit,
    EndThread,
    Spawn(u32, Option<u8>),
    Yield,
    Write(&'static [u8]),
    Read(&'static [u8]),
}

/// What comes of a program and a log.
#[derive(Clone, Copy)]
enum Found {
    /// The log doesn't fit.
    Nothing,
    /// It fits, with this number of accesses, and its threads pass these addresses.
    Walk(u64, &'static [&'static [u32]]),
    /// It fits, and ends in a fault here; whether an instruction stands there.
    Fault(u32, bool),
}

/// The steps and the path of a thread.
type Thread = (u32, &'static [PathItem]);

/// A call with its thread and step.
type Record = (u8, u32, Made);

/// A program's words, the threads, calls and end of a log, and what comes of them.
type Row = (
    &'static [u32],
    &'static [Thread],
    &'static [Record],
    End,
    Found,
);

const TAKEN: PathItem = PathItem::Branch(true);

const TARGET: PathItem = PathItem::Jump(0x1_0000);

static ROWS: [Row; 71] = [
    // Two threads: a branch, a spawn, a jump, loads and stores, and calls.
    (
        &[
            ADDI, BEQ_8, EBREAK, ECALL, JALR, LW, SW, JAL_8, NONE, ECALL, ECALL,
        ],
        &[(9, &[TAKEN, PathItem::Jump(0x1_0014)]), (5, &[])],
        &[
            (0, 2, Made::Spawn(0x1_0014, Some(1))),
            (1, 3, Made::Yield),
            (0, 7, Made::Write(b"a")),
            (0, 8, Made::EndThread),
            (1, 4, Made::Exit),
        ],
        End::Exited { tid: 1, code: 0 },
        Found::Walk(
            5,
            &[
                &[
                    0x1_0000, 0x1_0004, 0x1_000c, 0x1_0010, 0x1_0014, 0x1_0018, 0x1_001c, 0x1_0024,
                    0x1_0028,
                ],
                &[0x1_0014, 0x1_0018, 0x1_001c, 0x1_0024, 0x1_0028],
            ],
        ),
    ),
    // The first spawn starts its child.
    (
        &[ECALL, ECALL, ECALL, ADDI, ADDI],
        &[(3, &[]), (1, &[])],
        &[
            (0, 0, Made::Spawn(0x1_0010, Some(0))),
            (0, 1, Made::Spawn(0x1_000c, Some(1))),
            (0, 2, Made::Spawn(0x1_0010, Some(1))),
        ],
        End::Cut,
        Found::Walk(0, &[&[0x1_0000, 0x1_0004, 0x1_0008], &[0x1_000c]]),
    ),
    // Accesses are counted.
    (
        &[LR, SC, AMOADD, LW, SW, ADDI],
        &[(6, &[])],
        &[],
        End::Cut,
        Found::Walk(5, &[]),
    ),
    (
        &[ECALL, ECALL, ECALL, ECALL, ECALL],
        &[(5, &[])],
        &[
            (0, 0, Made::Write(b"")),
            (0, 1, Made::Write(b"a")),
            (0, 2, Made::Read(b"")),
            (0, 3, Made::Read(b"ab")),
            (0, 4, Made::Yield),
        ],
        End::Cut,
        Found::Walk(2, &[]),
    ),
    (
        &[BEQ_8, ADDI],
        &[(2, &[PathItem::Branch(false)])],
        &[],
        End::Cut,
        Found::Walk(0, &[&[0x1_0000, 0x1_0004]]),
    ),
    // A log without a thread.
    (&[ADDI], &[], &[], End::AllDone, Found::Walk(0, &[])),
    // A thread begins where it was spawned.
    (
        &[ECALL, ADDI],
        &[(1, &[]), (1, &[])],
        &[(0, 0, Made::Spawn(0x1_0004, Some(1)))],
        End::Cut,
        Found::Walk(0, &[]),
    ),
    (
        &[ECALL, ADDI],
        &[(1, &[]), (1, &[])],
        &[(0, 0, Made::Spawn(0x1_0004, Some(2)))],
        End::Cut,
        Found::Nothing,
    ),
    (
        &[ECALL, ADDI],
        &[(1, &[]), (1, &[])],
        &[(0, 0, Made::Spawn(0x1_0004, Some(0)))],
        End::Cut,
        Found::Nothing,
    ),
    (
        &[ECALL, ADDI],
        &[(1, &[]), (1, &[])],
        &[(0, 0, Made::Spawn(0x1_0004, None))],
        End::Cut,
        Found::Nothing,
    ),
    (
        &[ECALL, ADDI],
        &[(1, &[]), (1, &[])],
        &[(0, 0, Made::Spawn(0x1_0002, Some(1)))],
        End::Cut,
        Found::Nothing,
    ),
    (
        &[ECALL, ADDI],
        &[(1, &[]), (1, &[])],
        &[(0, 0, Made::Spawn(0x2_0000, Some(1)))],
        End::Cut,
        Found::Nothing,
    ),
    (
        &[ADDI],
        &[(1, &[]), (0, &[])],
        &[],
        End::Cut,
        Found::Nothing,
    ),
    // A path is that of its instructions.
    (
        &[BEQ_8],
        &[(1, &[TAKEN])],
        &[],
        End::Cut,
        Found::Walk(0, &[]),
    ),
    (&[BEQ_8], &[(1, &[TARGET])], &[], End::Cut, Found::Nothing),
    (&[BEQ_8], &[(1, &[])], &[], End::Cut, Found::Nothing),
    (
        &[BEQ_8],
        &[(1, &[TAKEN, TAKEN])],
        &[],
        End::Cut,
        Found::Nothing,
    ),
    (&[BEQ_6], &[(1, &[TAKEN])], &[], End::Cut, Found::Nothing),
    (
        &[BEQ_6],
        &[(1, &[PathItem::Branch(false)])],
        &[],
        End::Cut,
        Found::Walk(0, &[]),
    ),
    (
        &[JALR],
        &[(1, &[TARGET])],
        &[],
        End::Cut,
        Found::Walk(0, &[]),
    ),
    (&[JALR], &[(1, &[TAKEN])], &[], End::Cut, Found::Nothing),
    (
        &[JALR],
        &[(1, &[PathItem::Jump(0x1_0002)])],
        &[],
        End::Cut,
        Found::Nothing,
    ),
    (&[JALR], &[(1, &[])], &[], End::Cut, Found::Nothing),
    (&[JAL_8], &[(1, &[])], &[], End::Cut, Found::Walk(0, &[])),
    (&[JAL_8], &[(1, &[TARGET])], &[], End::Cut, Found::Nothing),
    (&[JAL_6], &[(1, &[])], &[], End::Cut, Found::Nothing),
    (&[ADDI], &[(1, &[])], &[], End::Cut, Found::Walk(0, &[])),
    (&[ADDI], &[(1, &[TAKEN])], &[], End::Cut, Found::Nothing),
    (&[EBREAK], &[(1, &[])], &[], End::Cut, Found::Nothing),
    (&[NONE], &[(1, &[])], &[], End::Cut, Found::Nothing),
    // Past the code.
    (&[ADDI], &[(2, &[])], &[], End::Cut, Found::Nothing),
    // Calls are those of its instructions.
    (
        &[ADDI, ECALL, ADDI],
        &[(3, &[])],
        &[(0, 1, Made::Yield)],
        End::Cut,
        Found::Walk(0, &[]),
    ),
    (
        &[ADDI, ECALL, ADDI],
        &[(1, &[])],
        &[(0, 1, Made::Yield)],
        End::Cut,
        Found::Nothing,
    ),
    (
        &[ADDI, ECALL, ADDI],
        &[(3, &[])],
        &[],
        End::Cut,
        Found::Nothing,
    ),
    (
        &[ADDI, ECALL, ADDI],
        &[(1, &[])],
        &[],
        End::Cut,
        Found::Walk(0, &[]),
    ),
    (
        &[ADDI, ECALL, ADDI],
        &[(3, &[])],
        &[(0, 1, Made::Yield), (0, 1, Made::Yield)],
        End::Cut,
        Found::Nothing,
    ),
    (
        &[ADDI, ECALL, ADDI],
        &[(3, &[])],
        &[(0, 0, Made::Yield)],
        End::Cut,
        Found::Nothing,
    ),
    (
        &[ADDI, ECALL, ADDI],
        &[(3, &[])],
        &[(0, 2, Made::Yield)],
        End::Cut,
        Found::Nothing,
    ),
    (
        &[ADDI, ECALL, ADDI],
        &[(3, &[])],
        &[(0, 1, Made::Yield), (1, 0, Made::Yield)],
        End::Cut,
        Found::Nothing,
    ),
    (
        &[ADDI, ECALL, ADDI],
        &[(2, &[])],
        &[(0, 1, Made::EndThread)],
        End::Cut,
        Found::Walk(0, &[]),
    ),
    (
        &[ADDI, ECALL, ADDI],
        &[(3, &[])],
        &[(0, 1, Made::EndThread)],
        End::Cut,
        Found::Nothing,
    ),
    (
        &[ADDI, ECALL, ADDI],
        &[(2, &[])],
        &[(0, 1, Made::Exit)],
        End::Cut,
        Found::Walk(0, &[]),
    ),
    (
        &[ADDI, ECALL, ADDI],
        &[(3, &[])],
        &[(0, 1, Made::Exit)],
        End::Cut,
        Found::Nothing,
    ),
    // A call of no thread.
    (
        &[ADDI, ECALL, ADDI],
        &[],
        &[(0, 1, Made::Yield)],
        End::Cut,
        Found::Nothing,
    ),
    // A fault is one of its instruction.
    (
        &[ADDI],
        &[(1, &[])],
        &[],
        End::Faulted {
            tid: 0,
            cause: Cause::FetchFault,
        },
        Found::Fault(0x1_0004, false),
    ),
    (
        &[ADDI],
        &[(0, &[])],
        &[],
        End::Faulted {
            tid: 0,
            cause: Cause::FetchFault,
        },
        Found::Nothing,
    ),
    (
        &[NONE],
        &[(0, &[])],
        &[],
        End::Faulted {
            tid: 0,
            cause: Cause::FetchFault,
        },
        Found::Nothing,
    ),
    (
        &[NONE],
        &[(0, &[])],
        &[],
        End::Faulted {
            tid: 0,
            cause: Cause::Illegal,
        },
        Found::Fault(0x1_0000, false),
    ),
    (
        &[ADDI],
        &[(0, &[])],
        &[],
        End::Faulted {
            tid: 0,
            cause: Cause::Illegal,
        },
        Found::Nothing,
    ),
    (
        &[ADDI],
        &[(1, &[])],
        &[],
        End::Faulted {
            tid: 0,
            cause: Cause::Illegal,
        },
        Found::Nothing,
    ),
    (
        &[EBREAK],
        &[(0, &[])],
        &[],
        End::Faulted {
            tid: 0,
            cause: Cause::Breakpoint,
        },
        Found::Fault(0x1_0000, true),
    ),
    (
        &[ADDI],
        &[(0, &[])],
        &[],
        End::Faulted {
            tid: 0,
            cause: Cause::Breakpoint,
        },
        Found::Nothing,
    ),
    (
        &[JAL_6],
        &[(0, &[])],
        &[],
        End::Faulted {
            tid: 0,
            cause: Cause::Misaligned,
        },
        Found::Fault(0x1_0000, true),
    ),
    (
        &[JAL_8],
        &[(0, &[])],
        &[],
        End::Faulted {
            tid: 0,
            cause: Cause::Misaligned,
        },
        Found::Nothing,
    ),
    (
        &[BEQ_6],
        &[(0, &[])],
        &[],
        End::Faulted {
            tid: 0,
            cause: Cause::Misaligned,
        },
        Found::Fault(0x1_0000, true),
    ),
    (
        &[BEQ_8],
        &[(0, &[])],
        &[],
        End::Faulted {
            tid: 0,
            cause: Cause::Misaligned,
        },
        Found::Nothing,
    ),
    (
        &[JALR],
        &[(0, &[])],
        &[],
        End::Faulted {
            tid: 0,
            cause: Cause::Misaligned,
        },
        Found::Fault(0x1_0000, true),
    ),
    (
        &[ADDI],
        &[(0, &[])],
        &[],
        End::Faulted {
            tid: 0,
            cause: Cause::Misaligned,
        },
        Found::Nothing,
    ),
    (
        &[LW],
        &[(0, &[])],
        &[],
        End::Faulted {
            tid: 0,
            cause: Cause::LoadFault,
        },
        Found::Fault(0x1_0000, true),
    ),
    (
        &[SW],
        &[(0, &[])],
        &[],
        End::Faulted {
            tid: 0,
            cause: Cause::LoadFault,
        },
        Found::Nothing,
    ),
    (
        &[SW],
        &[(0, &[])],
        &[],
        End::Faulted {
            tid: 0,
            cause: Cause::StoreFault,
        },
        Found::Fault(0x1_0000, true),
    ),
    (
        &[LW],
        &[(0, &[])],
        &[],
        End::Faulted {
            tid: 0,
            cause: Cause::StoreFault,
        },
        Found::Nothing,
    ),
    (
        &[LR],
        &[(0, &[])],
        &[],
        End::Faulted {
            tid: 0,
            cause: Cause::AmoFault,
        },
        Found::Fault(0x1_0000, true),
    ),
    (
        &[SC],
        &[(0, &[])],
        &[],
        End::Faulted {
            tid: 0,
            cause: Cause::AmoFault,
        },
        Found::Fault(0x1_0000, true),
    ),
    (
        &[AMOADD],
        &[(0, &[])],
        &[],
        End::Faulted {
            tid: 0,
            cause: Cause::AmoFault,
        },
        Found::Fault(0x1_0000, true),
    ),
    (
        &[LW],
        &[(0, &[])],
        &[],
        End::Faulted {
            tid: 0,
            cause: Cause::AmoFault,
        },
        Found::Nothing,
    ),
    // A fault is of a thread that goes on.
    (
        &[ECALL, EBREAK],
        &[(1, &[])],
        &[(0, 0, Made::Yield)],
        End::Faulted {
            tid: 0,
            cause: Cause::Breakpoint,
        },
        Found::Fault(0x1_0004, true),
    ),
    (
        &[ECALL, EBREAK],
        &[(1, &[])],
        &[(0, 0, Made::EndThread)],
        End::Faulted {
            tid: 0,
            cause: Cause::Breakpoint,
        },
        Found::Nothing,
    ),
    (
        &[ECALL, EBREAK],
        &[(1, &[])],
        &[(0, 0, Made::Exit)],
        End::Faulted {
            tid: 0,
            cause: Cause::Breakpoint,
        },
        Found::Nothing,
    ),
    (
        &[ECALL, EBREAK],
        &[(1, &[])],
        &[(0, 0, Made::Yield)],
        End::Faulted {
            tid: 1,
            cause: Cause::Breakpoint,
        },
        Found::Nothing,
    ),
    (
        &[ECALL, EBREAK],
        &[(1, &[])],
        &[(0, 0, Made::Yield)],
        End::Cut,
        Found::Walk(0, &[]),
    ),
];

fn call_of(alloc: Global, made: Made) -> Result<Call, Fail> {
    match made {
        Made::Exit => Ok(Call::Exit { code: 0 }),
        Made::EndThread => Ok(Call::EndThread),
        Made::Spawn(entry, child) => Ok(Call::Spawn { entry, child }),
        Made::Yield => Ok(Call::Yield),
        Made::Write(bytes) => Ok(Call::Write {
            bytes: Bytes::from_slice(alloc, bytes)?,
        }),
        Made::Read(bytes) => Ok(Call::Read {
            want: 4,
            bytes: Bytes::from_slice(alloc, bytes)?,
        }),
    }
}

fn threads_of(alloc: Global, told: &[Thread]) -> Result<List<ThreadLog>, Fail> {
    let mut threads = List::new(alloc);
    for (steps, path) in told {
        let path = List::of(path.to_vec(alloc)?);
        threads.push(ThreadLog {
            steps: *steps,
            path,
        })?;
    }
    Ok(threads)
}

fn calls_of(alloc: Global, told: &[Record]) -> Result<List<CallRec>, Fail> {
    let mut calls = List::new(alloc);
    for (tid, at, made) in told {
        let call = call_of(alloc, *made)?;
        calls.push(CallRec {
            tid: *tid,
            at: *at,
            call,
        })?;
    }
    Ok(calls)
}

/// The address of a step that the log counts.
fn pc_of(image: &Image, log: &Log, traces: &Traces, at: Pos) -> Option<u32>
    requires { IsTraced image.now log.now traces.now }
{
    let thread = log.threads.as_slice().get(usize::from(at.thread))?;
    if at.step < thread.steps {
        Some(traces.instr(at).0)
    } else {
        None
    }
}

/// That the threads of a walk pass these addresses.
fn passes(rt: &impl Abort, image: &Image, log: &Log, traces: &Traces, pcs: &[&[u32]], row: usize)
    requires { IsTraced image.now log.now traces.now }
{
    for (thread, steps) in (0u8..8).zip(pcs) {
        for (step, pc) in (0u32..16).zip(*steps) {
            let found = pc_of(image, log, traces, Pos { thread, step });
            assert_eq!(rt; found, Some(*pc), "row {row}");
        }
    }
}

/// Compares what comes of a row with what must come of it.
fn compare(rt: &impl Abort, alloc: Global, at: usize, row: Row) -> Result<(), Fail> {
    let (words, threads, calls, end, wanted) = row;
    let image = image_of(alloc, words)?;
    let log = Log {
        version: 1,
        threads: threads_of(alloc, threads)?,
        calls: calls_of(alloc, calls)?,
        end,
    };
    match (Traces::build(alloc, &image, &log)?, wanted) {
        (None, Found::Nothing) => {}
        (Some(traces), Found::Walk(accesses, pcs)) => {
            assert_eq!(rt; traces.access_count(), accesses, "row {at}");
            assert!(rt; traces.fault_instr().is_none(), "row {at}");
            passes(rt, &image, &log, &traces, pcs, at);
        }
        (Some(traces), Found::Fault(pc, there)) => {
            let fault = traces.fault_instr().ok_or("a fault")?;
            assert_eq!(rt; (fault.0, fault.1.is_some()), (pc, there), "row {at}");
        }
        _ => assert!(rt; false, "row {at}"),
    }
    Ok(())
}

#[test]
fn logs_fit_their_programs(rt: HostRuntime) -> Result<(), Fail> {
    for (at, row) in ROWS.iter().enumerate() {
        compare(&rt, rt.alloc(), at, *row)?;
    }
    Ok(())
}
