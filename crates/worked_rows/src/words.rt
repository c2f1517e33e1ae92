//! Words that are a job, and words that are none.

use crate::row::{Row, meets_all};
use std::test::Fail;

/// Words that are no job. The first call of the store and of out would fail.
const BAD_WORDS: Row<'static> = Row {
    held: &[],
    before: &[],
    words: &[],
    failing: [&[0], &[0], &[]],
    status: 2,
    out: b"",
    err: "odr: bad words\n",
    saved: ("out", None),
};

/// A job whose program is absent.
const A_JOB: Row<'static> = Row {
    failing: [&[1], &[0], &[]],
    status: 14,
    err: "odr: no file: a\n",
    ..BAD_WORDS
};

/// A command that is refused before anything is loaded.
const NOT_BUILT: Row<'static> = Row {
    status: 12,
    err: "odr: not built\n",
    ..BAD_WORDS
};

static ROWS: [Row<'static>; 28] = [
    BAD_WORDS,
    Row {
        words: &["infer", "a", "b"],
        ..BAD_WORDS
    },
    Row {
        words: &["infer", "a", "b", "c", "d"],
        ..BAD_WORDS
    },
    Row {
        words: &["infer", "a", "b", "c", "--steps", "0"],
        ..BAD_WORDS
    },
    Row {
        words: &["infer", "a", "b", "c", "--steps", "1000000001"],
        ..BAD_WORDS
    },
    Row {
        words: &["infer", "a", "b", "c", "--steps"],
        ..BAD_WORDS
    },
    Row {
        words: &["infer", "a", "b", "c", "--steps="],
        ..BAD_WORDS
    },
    Row {
        words: &["infer", "a", "b", "c", "--seed", "1"],
        ..BAD_WORDS
    },
    Row {
        words: &["infer", "a", "b", "c", "--", "d"],
        ..BAD_WORDS
    },
    Row {
        words: &["infer", "a", "b", "--", "c"],
        ..BAD_WORDS
    },
    Row {
        words: &["infer", "-a", "b", "c"],
        ..BAD_WORDS
    },
    Row {
        words: &["infer", "a", "b", ""],
        ..BAD_WORDS
    },
    Row {
        words: &["record", "a", "b", "--seed", "1", "--seed", "2"],
        ..BAD_WORDS
    },
    Row {
        words: &["record", "a", "b", "--seed", "18446744073709551616"],
        ..BAD_WORDS
    },
    Row {
        words: &["record", "a", "b", "--limit", "250001"],
        ..BAD_WORDS
    },
    Row {
        words: &["record", "a", "b", "--limit", "0"],
        ..BAD_WORDS
    },
    Row {
        words: &["demo", "07"],
        ..BAD_WORDS
    },
    Row {
        words: &["demo", "41"],
        ..BAD_WORDS
    },
    Row {
        words: &["Infer", "a", "b", "c"],
        ..BAD_WORDS
    },
    Row {
        words: &["infer", "a", "b", "c", "--steps", "1000000000"],
        ..A_JOB
    },
    Row {
        words: &["infer", "--steps=1", "a", "b", "c"],
        ..A_JOB
    },
    Row {
        words: &["asm", "a", "b"],
        ..A_JOB
    },
    Row {
        words: &["replay", "a", "b", "c"],
        ..A_JOB
    },
    Row {
        words: &[
            "record",
            "a",
            "b",
            "--limit=250000",
            "--seed",
            "18446744073709551615",
        ],
        ..A_JOB
    },
    Row {
        words: &["check", "a", "b", "c"],
        ..NOT_BUILT
    },
    Row {
        words: &["debug", "a", "b", "c"],
        ..NOT_BUILT
    },
    Row {
        words: &["demo", "0"],
        ..NOT_BUILT
    },
    Row {
        words: &["demo", "40"],
        ..NOT_BUILT
    },
];

#[test]
fn jobs_and_bad_words(rt: HostRuntime) -> Result<(), Fail> {
    meets_all(&rt, rt.alloc(), &ROWS)
}
