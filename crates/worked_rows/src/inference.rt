//! Inference: a program and a log go in, a schedule comes out.

use crate::row::{Held, Row, meets, meets_all, words_of};
use guest_programs::logs::{
    EXTRA_HEADER_FILE, HELLO_FILE, HELLO_LOG, LOST_UPDATE_LOG, NO_CODE_LOG, NOTHING_LOG,
};
use odr_io::sure_files::SureFiles;
use odr_io::sure_sink::SureSink;
use odr_io::sure_source::SureSource;
use odr_top::run::odr_run;
use std::test::Fail;

const WORDS: [&str; 4] = ["infer", "hello", "hello.log", "out"];

const HELLO: Held<'static> = ("hello", &HELLO_FILE, &[]);

const LOG: Held<'static> = ("hello.log", &HELLO_LOG, &[]);

/// The log says `ii` and a line feed.
const CHANGED: Held<'static> = ("hello.log", &HELLO_LOG, &[(26, 0x69)]);

/// The hello program and its log.
const EXPLAINED: Row<'static> = Row {
    held: &[HELLO, LOG],
    before: &[],
    words: &WORDS,
    failing: [&[], &[], &[]],
    status: 0,
    out: b"run, 8 steps\n",
    err: "",
    saved: ("out", Some(b"0 8\n")),
};

/// Something that is refused.
const REFUSED: Row<'static> = Row {
    out: b"",
    saved: ("out", None),
    ..EXPLAINED
};

/// A program that is no image.
const NO_IMAGE: Row<'static> = Row {
    status: 3,
    ..REFUSED
};

/// A file that is not there.
const ABSENT: Row<'static> = Row {
    status: 14,
    ..REFUSED
};

/// A store or a sink that fails.
const DEVICE: Row<'static> = Row {
    status: 6,
    err: "odr: device\n",
    ..REFUSED
};

static ROWS: [Row<'static>; 27] = [
    EXPLAINED,
    // No further call is made: one would fail.
    Row {
        failing: [&[3], &[1], &[0]],
        ..EXPLAINED
    },
    Row {
        words: &["infer", "hello", "hello.log", "hello.log"],
        saved: ("hello.log", Some(b"0 8\n")),
        ..EXPLAINED
    },
    Row {
        words: &["infer", "--steps=1", "hello", "hello.log", "out"],
        ..EXPLAINED
    },
    Row {
        held: &[HELLO, ("hello.log", &NOTHING_LOG, &[])],
        out: b"run, 0 steps\n",
        saved: ("out", Some(b"")),
        ..EXPLAINED
    },
    Row {
        // The second instruction is `add a0, a0, zero`.
        held: &[("hello", &HELLO_FILE, &[(120, 0x33)]), LOG],
        ..EXPLAINED
    },
    Row {
        held: &[("hello", &EXTRA_HEADER_FILE, &[]), LOG],
        ..EXPLAINED
    },
    Row {
        // A jump to where nothing can be fetched: the fault takes an entry.
        held: &[
            ("jump.s", b"jalr zero, 4(zero)", &[]),
            ("hello.log", &NO_CODE_LOG, &[]),
        ],
        before: &[&["asm", "jump.s", "hello"]],
        out: b"run, 2 steps\n",
        saved: ("out", Some(b"0 2\n")),
        ..EXPLAINED
    },
    Row {
        held: &[HELLO, CHANGED],
        status: 9,
        err: "odr: differs at 4\n",
        ..REFUSED
    },
    Row {
        held: &[HELLO, ("hello.log", &LOST_UPDATE_LOG, &[])],
        status: 12,
        err: "odr: not built\n",
        ..REFUSED
    },
    Row {
        held: &[HELLO, ("hello.log", &HELLO_LOG, &[(4, 3)])],
        status: 4,
        err: "odr: log: bad at 4\n",
        ..REFUSED
    },
    Row {
        // 250,001 steps.
        held: &[
            HELLO,
            ("hello.log", &HELLO_LOG, &[(6, 0x91), (7, 0xd0), (8, 0x03)]),
        ],
        status: 4,
        err: "odr: log: too large\n",
        ..REFUSED
    },
    Row {
        held: &[("hello", &HELLO_FILE, &[(36, 1)]), LOG],
        err: "odr: elf: Compressed\n",
        ..NO_IMAGE
    },
    Row {
        // The log isn't loaded before the program was judged.
        held: &[("hello", &HELLO_FILE, &[(36, 1)]), LOG],
        failing: [&[1], &[], &[]],
        err: "odr: elf: Compressed\n",
        ..NO_IMAGE
    },
    Row {
        held: &[("hello", &HELLO_FILE, &[(76, 7)]), LOG],
        err: "odr: elf: WritableCode\n",
        ..NO_IMAGE
    },
    Row {
        words: &["infer", "gone", "hello.log", "out"],
        err: "odr: no file: gone\n",
        ..ABSENT
    },
    Row {
        words: &["infer", "hello", "lost", "out"],
        err: "odr: no file: lost\n",
        ..ABSENT
    },
    Row {
        words: &["infer", "gone", "lost", "out"],
        err: "odr: no file: gone\n",
        ..ABSENT
    },
    Row {
        failing: [&[0], &[], &[]],
        ..DEVICE
    },
    Row {
        failing: [&[1], &[], &[]],
        ..DEVICE
    },
    Row {
        failing: [&[2], &[], &[]],
        ..DEVICE
    },
    Row {
        failing: [&[], &[0], &[]],
        saved: ("out", Some(b"0 8\n")),
        ..DEVICE
    },
    Row {
        failing: [&[], &[0], &[0]],
        err: "",
        saved: ("out", Some(b"0 8\n")),
        ..DEVICE
    },
    Row {
        held: &[HELLO, CHANGED],
        failing: [&[], &[], &[0]],
        err: "",
        ..DEVICE
    },
    Row {
        words: &[],
        failing: [&[], &[], &[0]],
        err: "",
        ..DEVICE
    },
    Row {
        // A misaligned entry can't be fetched.
        held: &[("hello", &HELLO_FILE, &[(24, 2)]), LOG],
        err: "odr: elf: EntryOutside\n",
        ..NO_IMAGE
    },
    Row {
        held: &[("hello", &HELLO_FILE, &[(0, 0)]), LOG],
        err: "odr: elf: Magic\n",
        ..NO_IMAGE
    },
];

#[test]
fn inferences(rt: HostRuntime) -> Result<(), Fail> {
    meets_all(&rt, rt.alloc(), &ROWS)
}

#[test]
fn short_program(rt: HostRuntime) -> Result<(), Fail> {
    let row = Row {
        held: &[("hello", &HELLO_FILE[..51], &[]), LOG],
        err: "odr: elf: Short\n",
        ..NO_IMAGE
    };
    meets(&rt, rt.alloc(), 0, &row)
}

#[test]
fn hello_where_nothing_fails(rt: HostRuntime) -> Result<(), Fail> {
    let alloc = rt.alloc();
    let words = words_of(alloc, &WORDS)?;
    let mut files = SureFiles::new(alloc);
    files.hold("hello", &HELLO_FILE)?;
    files.hold("hello.log", &HELLO_LOG)?;
    let mut commands = SureSource::new(Vec::new(alloc));
    let mut out = SureSink::new(alloc);
    let mut err = SureSink::new(alloc);
    let status = odr_run(
        alloc,
        words.as_slice(),
        &mut files,
        &mut commands,
        &mut out,
        &mut err,
    );
    assert_eq!(rt; status, 0);
    assert_eq!(rt; out.bytes(), b"run, 8 steps\n".as_slice());
    assert_eq!(rt; err.bytes(), b"".as_slice());
    assert!(rt; files.look("out") == Some(b"0 8\n".as_slice()));
    Ok(())
}
