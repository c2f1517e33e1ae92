//! Recording: a program, a seed and an input go in, a log comes out.

use crate::row::{Held, Row, answers, meets_all};
use guest_programs::logs::{
    BREAKPOINT_LOG, EXTRA_HEADER_FILE, HELLO_FILE, HELLO_LOG, NO_CODE_LOG, SEEDED_CUT_LOG,
    TAPE_LOG, UNKNOWN_CALL_LOG,
};
use guest_programs::programs::{
    BREAKPOINT_TEXT, NO_CODE_TEXT, SEEDED_CUT_TEXT, TAPE_TEXT, UNKNOWN_CALL_TEXT,
};
use guest_programs::texts::ACCESS_LIMIT;
use odr_io::mem_files::MemFiles;
use std::test::Fail;

const HELLO: Held<'static> = ("hello", &HELLO_FILE, &[]);

/// A recording of hello.
const RECORDED: Row<'static> = Row {
    held: &[HELLO],
    before: &[],
    words: &["record", "hello", "log"],
    failing: [&[], &[], &[]],
    status: 0,
    out: b"steps 8, calls 2, end exit 0 0\n",
    err: "",
    saved: ("log", Some(&HELLO_LOG)),
};

/// A recording of a program that is assembled first.
const MADE: Row<'static> = Row {
    before: &[&["asm", "text.s", "program"]],
    words: &["record", "program", "log"],
    ..RECORDED
};

const ABSENT: Row<'static> = Row {
    status: 14,
    out: b"",
    saved: ("log", None),
    ..RECORDED
};

const DEVICE: Row<'static> = Row {
    status: 6,
    out: b"",
    err: "odr: device\n",
    saved: ("log", None),
    ..RECORDED
};

static ROWS: [Row<'static>; 22] = [
    RECORDED,
    // No further call is made: one would fail.
    Row {
        failing: [&[2], &[1], &[0]],
        ..RECORDED
    },
    Row {
        held: &[("hello", &EXTRA_HEADER_FILE, &[])],
        ..RECORDED
    },
    Row {
        words: &["record", "hello", "hello"],
        saved: ("hello", Some(&HELLO_LOG)),
        ..RECORDED
    },
    Row {
        held: &[("text.s", TAPE_TEXT, &[]), ("input", b"abcdef", &[])],
        words: &["record", "program", "log", "--input", "input"],
        out: b"steps 26, calls 7, end done\n",
        saved: ("log", Some(&TAPE_LOG)),
        ..MADE
    },
    Row {
        held: &[("text.s", SEEDED_CUT_TEXT, &[])],
        words: &["record", "program", "log", "--seed", "42", "--limit", "6"],
        out: b"steps 6, calls 1, end cut\n",
        saved: ("log", Some(&SEEDED_CUT_LOG)),
        ..MADE
    },
    Row {
        // The seed is 42 where none is given.
        held: &[("text.s", SEEDED_CUT_TEXT, &[])],
        words: &["record", "--limit=6", "program", "log"],
        out: b"steps 6, calls 1, end cut\n",
        saved: ("log", Some(&SEEDED_CUT_LOG)),
        ..MADE
    },
    Row {
        // The limit is 100,000 where none is given.
        held: &[("text.s", b"loop: j loop", &[])],
        out: b"steps 100000, calls 0, end cut\n",
        saved: ("none", None),
        ..MADE
    },
    Row {
        held: &[("text.s", UNKNOWN_CALL_TEXT, &[])],
        out: b"steps 4, calls 2, end done\n",
        saved: ("log", Some(&UNKNOWN_CALL_LOG)),
        ..MADE
    },
    Row {
        held: &[("text.s", ACCESS_LIMIT, &[])],
        out: b"steps 1541, calls 1, end done\n",
        saved: ("none", None),
        ..MADE
    },
    Row {
        held: &[("text.s", NO_CODE_TEXT, &[])],
        out: b"steps 1, calls 0, end fault 0 FetchFault\n",
        saved: ("log", Some(&NO_CODE_LOG)),
        ..MADE
    },
    Row {
        held: &[("text.s", BREAKPOINT_TEXT, &[])],
        out: b"steps 1, calls 0, end fault 0 Breakpoint\n",
        saved: ("log", Some(&BREAKPOINT_LOG)),
        ..MADE
    },
    Row {
        // What is recorded is inferred.
        before: &[&["record", "hello", "log"]],
        words: &["infer", "hello", "log", "out"],
        out: b"run, 8 steps\n",
        saved: ("out", Some(b"0 8\n")),
        ..RECORDED
    },
    Row {
        // What is inferred is replayed.
        before: &[
            &["record", "hello", "log"],
            &["infer", "hello", "log", "out"],
        ],
        words: &["replay", "hello", "log", "out"],
        out: b"hi\n",
        ..RECORDED
    },
    // The input isn't loaded before the program was judged.
    Row {
        held: &[("hello", &HELLO_FILE, &[(36, 1)])],
        words: &["record", "hello", "log", "--input=hello"],
        failing: [&[1], &[], &[]],
        status: 3,
        err: "odr: elf: Compressed\n",
        ..ABSENT
    },
    Row {
        words: &["record", "gone", "log"],
        err: "odr: no file: gone\n",
        ..ABSENT
    },
    Row {
        words: &["record", "hello", "log", "--input=gone"],
        err: "odr: no file: gone\n",
        ..ABSENT
    },
    Row {
        failing: [&[0], &[], &[]],
        ..DEVICE
    },
    Row {
        failing: [&[1], &[], &[]],
        ..DEVICE
    },
    Row {
        words: &["record", "hello", "log", "--input=hello"],
        failing: [&[1], &[], &[]],
        ..DEVICE
    },
    Row {
        words: &["record", "hello", "log", "--input=hello"],
        failing: [&[2], &[], &[]],
        ..DEVICE
    },
    Row {
        failing: [&[], &[0], &[]],
        saved: ("log", Some(&HELLO_LOG)),
        ..DEVICE
    },
];

#[test]
fn recordings(rt: HostRuntime) -> Result<(), Fail> {
    meets_all(&rt, rt.alloc(), &ROWS)
}

/// An input of one more byte than it may have, and of as many.
#[test]
fn input_above_the_limit(rt: HostRuntime) -> Result<(), Fail> {
    let alloc = rt.alloc();
    let words = ["record", "hello", "log", "--input", "input"];
    let input = vec![in alloc; 0; 1_048_577]?;
    let mut files = MemFiles::new(alloc, Vec::new(alloc));
    files.hold("hello", &HELLO_FILE)?;
    files.hold("input", input.as_slice())?;
    answers(
        &rt,
        alloc,
        &mut files,
        &words,
        5,
        b"",
        "odr: input: too large\n",
    )?;
    assert!(rt; files.look("log").is_none());
    files.hold("input", &input.as_slice()[1..])?;
    answers(
        &rt,
        alloc,
        &mut files,
        &words,
        0,
        b"steps 8, calls 2, end exit 0 0\n",
        "",
    )
}
