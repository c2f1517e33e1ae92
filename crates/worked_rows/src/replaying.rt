//! Replay: a program, a log and a schedule go in, the guest's output comes out.

use crate::row::{Held, Row, answers, meets_all};
use guest_programs::logs::{DEADLOCK_LOG, HELLO_FILE, HELLO_LOG, LOST_UPDATE_LOG};
use guest_programs::programs::{DEADLOCK_TEXT, LOST_UPDATE_TEXT};
use odr_io::mem_files::MemFiles;
use std::test::Fail;

const HELLO: Held<'static> = ("hello", &HELLO_FILE, &[]);

const LOG: Held<'static> = ("hello.log", &HELLO_LOG, &[]);

const LOST: Held<'static> = ("lost.s", LOST_UPDATE_TEXT, &[]);

const LOST_LOG: Held<'static> = ("lost.log", &LOST_UPDATE_LOG, &[]);

/// The schedule of hello.
const REPLAYED: Row<'static> = Row {
    held: &[HELLO, LOG, ("schedule", b"0 8\n", &[])],
    before: &[],
    words: &["replay", "hello", "hello.log", "schedule"],
    failing: [&[], &[], &[]],
    status: 0,
    out: b"hi\n",
    err: "",
    saved: ("schedule", Some(b"0 8\n")),
};

/// Schedules of the lost update.
const UPDATED: Row<'static> = Row {
    before: &[&["asm", "lost.s", "lost"]],
    words: &["replay", "lost", "lost.log", "schedule"],
    saved: ("out", None),
    ..REPLAYED
};

const DIFFERS: Row<'static> = Row {
    status: 9,
    out: b"",
    ..UPDATED
};

/// Texts of no schedule.
const BAD_TEXT: Row<'static> = Row {
    status: 5,
    out: b"",
    saved: ("out", None),
    ..REPLAYED
};

const ABSENT: Row<'static> = Row {
    status: 14,
    out: b"",
    saved: ("out", None),
    ..REPLAYED
};

const DEVICE: Row<'static> = Row {
    status: 6,
    out: b"",
    err: "odr: device\n",
    ..REPLAYED
};

static ROWS: [Row<'static>; 21] = [
    REPLAYED,
    // No further call is made: one would fail.
    Row {
        failing: [&[3], &[1], &[0]],
        ..REPLAYED
    },
    Row {
        held: &[
            LOST,
            LOST_LOG,
            ("schedule", b"0 8\n1 3\n2 3\n1 4\n2 4\n0 17\n", &[]),
        ],
        out: b"1",
        ..UPDATED
    },
    Row {
        held: &[LOST, LOST_LOG, ("schedule", b"0 8\n1 7\n2 7\n0 17\n", &[])],
        err: "odr: differs at 35\n",
        ..DIFFERS
    },
    Row {
        // The join waits.
        held: &[LOST, LOST_LOG, ("schedule", b"0 11\n", &[])],
        err: "odr: differs at 10\n",
        ..DIFFERS
    },
    Row {
        held: &[LOST, LOST_LOG, ("schedule", b"0 8\n", &[])],
        err: "odr: differs at 8\n",
        ..DIFFERS
    },
    Row {
        held: &[LOST, LOST_LOG, ("schedule", b"", &[])],
        err: "odr: differs at 0\n",
        ..DIFFERS
    },
    Row {
        held: &[
            ("lost.s", DEADLOCK_TEXT, &[]),
            ("lost.log", &DEADLOCK_LOG, &[]),
            ("schedule", b"0 9\n1 4\n2 4\n", &[]),
        ],
        out: b"",
        ..UPDATED
    },
    Row {
        held: &[HELLO, LOG, ("schedule", b"0 8\n0 1\n", &[])],
        err: "odr: text: line 2\n",
        ..BAD_TEXT
    },
    Row {
        held: &[HELLO, LOG, ("schedule", b"0 08\n", &[])],
        err: "odr: text: line 1\n",
        ..BAD_TEXT
    },
    Row {
        held: &[HELLO, LOG, ("schedule", b"0 0\n", &[])],
        err: "odr: text: line 1\n",
        ..BAD_TEXT
    },
    Row {
        held: &[HELLO, LOG, ("schedule", b"0 8", &[])],
        err: "odr: text: line 1\n",
        ..BAD_TEXT
    },
    Row {
        words: &["replay", "gone", "lost", "missing"],
        err: "odr: no file: gone\n",
        ..ABSENT
    },
    Row {
        words: &["replay", "hello", "lost", "missing"],
        err: "odr: no file: lost\n",
        ..ABSENT
    },
    Row {
        words: &["replay", "hello", "hello.log", "missing"],
        err: "odr: no file: missing\n",
        ..ABSENT
    },
    // The schedule isn't loaded before the log was judged.
    Row {
        words: &["replay", "hello", "lost", "schedule"],
        failing: [&[2], &[], &[]],
        err: "odr: no file: lost\n",
        ..ABSENT
    },
    Row {
        words: &["replay", "hello", "hello", "schedule"],
        failing: [&[2], &[], &[]],
        status: 4,
        err: "odr: log: bad at 0\n",
        ..ABSENT
    },
    Row {
        failing: [&[0], &[], &[]],
        ..DEVICE
    },
    Row {
        failing: [&[1], &[], &[]],
        ..DEVICE
    },
    Row {
        failing: [&[2], &[], &[]],
        ..DEVICE
    },
    Row {
        failing: [&[], &[0], &[]],
        ..DEVICE
    },
];

#[test]
fn replays(rt: HostRuntime) -> Result<(), Fail> {
    meets_all(&rt, rt.alloc(), &ROWS)
}

/// The first bytes of a log, and the log with one byte more.
#[test]
fn logs_are_bad_at_their_offsets(rt: HostRuntime) -> Result<(), Fail> {
    let alloc = rt.alloc();
    let words = ["replay", "hello", "hello.log", "schedule"];
    let mut longer = HELLO_LOG.to_vec(alloc)?;
    longer.extend_from_slice(&[0])?;
    let mut files = MemFiles::new(alloc, Vec::new(alloc));
    files.hold("hello", &HELLO_FILE)?;
    for size in 0..=46 {
        if size == 45 {
            continue;
        }
        let offset = size.min(45);
        let err = format!(in alloc; "odr: log: bad at {offset}\n")?;
        files.hold("hello.log", &longer.as_slice()[..size])?;
        answers(&rt, alloc, &mut files, &words, 4, b"", err.as_str())?;
    }
    Ok(())
}
