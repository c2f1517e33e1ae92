//! Assembly: a text goes in, a program comes out.

use crate::row::{Row, answers, bytes_of, meets_all};
use guest_programs::logs::HELLO_FILE;
use guest_programs::programs::{
    BREAKPOINT, BREAKPOINT_TEXT, BYTES_MERGE, BYTES_MERGE_TEXT, COMPUTED_ADDRESS,
    COMPUTED_ADDRESS_TEXT, DEADLOCK, DEADLOCK_TEXT, DIVIDE, DIVIDE_TEXT, EIGHT_THREADS,
    EIGHT_THREADS_TEXT, HELLO, HELLO_TEXT, KEPT_LOCK, KEPT_LOCK_TEXT, LOCKED, LOCKED_TEXT,
    LOST_UPDATE, LOST_UPDATE_TEXT, MISALIGNED_STORE, MISALIGNED_STORE_TEXT, NO_CODE, NO_CODE_TEXT,
    Program, RACING_FAULT, RACING_FAULT_TEXT, SEEDED_CUT, SEEDED_CUT_TEXT, STORE_BUFFERING,
    STORE_BUFFERING_TEXT, STORE_CONDITIONAL_PAIRS, STORE_CONDITIONAL_PAIRS_TEXT, TAPE, TAPE_TEXT,
    UNKNOWN_CALL, UNKNOWN_CALL_TEXT,
};
use guest_programs::texts::{ACCESS_LIMIT, DEMO_FRONT, DEMO_REST, DIVIDE_LEAST, TWELVE_CELLS};
use odr_io::mem_files::MemFiles;
use std::alloc::{AllocError, Global};
use std::process::Abort;
use std::test::Fail;

const WORDS: [&str; 3] = ["asm", "text.s", "elf"];

/// The text of hello.
const ASSEMBLED: Row<'static> = Row {
    held: &[("text.s", HELLO_TEXT, &[])],
    before: &[],
    words: &WORDS,
    failing: [&[], &[], &[]],
    status: 0,
    out: b"151 bytes\n",
    err: "",
    saved: ("elf", Some(&HELLO_FILE)),
};

/// A text at fault.
const BAD_TEXT: Row<'static> = Row {
    status: 5,
    out: b"",
    saved: ("elf", None),
    ..ASSEMBLED
};

/// A store or a sink that fails.
const DEVICE: Row<'static> = Row {
    status: 6,
    out: b"",
    err: "odr: device\n",
    saved: ("elf", None),
    ..ASSEMBLED
};

static ROWS: [Row<'static>; 15] = [
    ASSEMBLED,
    // No further call is made: one would fail.
    Row {
        failing: [&[2], &[1], &[0]],
        ..ASSEMBLED
    },
    Row {
        words: &["asm", "text.s", "text.s"],
        saved: ("text.s", Some(&HELLO_FILE)),
        ..ASSEMBLED
    },
    Row {
        held: &[("text.s", b"addi a0, a0, 2048", &[])],
        err: "odr: text: line 1\n",
        ..BAD_TEXT
    },
    Row {
        held: &[("text.s", b"j away", &[])],
        err: "odr: text: unknown name, line 1\n",
        ..BAD_TEXT
    },
    Row {
        held: &[("text.s", b"", &[])],
        err: "odr: text: line 1\n",
        ..BAD_TEXT
    },
    Row {
        held: &[("text.s", b"j away; nothing; ecall;", &[])],
        err: "odr: text: unknown name, line 1\n",
        ..BAD_TEXT
    },
    Row {
        // A name of 64 bytes, and one of 65.
        held: &[(
            "text.s",
            b"nnnnnnnnnnnnnnnnnnnnnnnnnnnnnnnnnnnnnnnnnnnnnnnnnnnnnnnnnnnnnnnn: ecall",
            &[],
        )],
        out: b"88 bytes\n",
        saved: ("none", None),
        ..ASSEMBLED
    },
    Row {
        held: &[(
            "text.s",
            b"nnnnnnnnnnnnnnnnnnnnnnnnnnnnnnnnnnnnnnnnnnnnnnnnnnnnnnnnnnnnnnnnn: ecall",
            &[],
        )],
        err: "odr: text: line 1\n",
        ..BAD_TEXT
    },
    Row {
        held: &[("text.s", b"ecall; .data; .zero 65536; .byte 0", &[])],
        err: "odr: text: too large\n",
        ..BAD_TEXT
    },
    Row {
        words: &["asm", "gone", "elf"],
        status: 14,
        err: "odr: no file: gone\n",
        ..BAD_TEXT
    },
    Row {
        failing: [&[0], &[], &[]],
        ..DEVICE
    },
    Row {
        failing: [&[1], &[], &[]],
        ..DEVICE
    },
    Row {
        failing: [&[], &[0], &[]],
        saved: ("elf", Some(&HELLO_FILE)),
        ..DEVICE
    },
    Row {
        held: &[("text.s", b"", &[])],
        failing: [&[], &[], &[0]],
        err: "",
        ..DEVICE
    },
];

#[test]
fn texts_are_assembled(rt: HostRuntime) -> Result<(), Fail> {
    meets_all(&rt, rt.alloc(), &ROWS)
}

/// As many bytes as a text may have, and one more: empty lines, the last of which has no instruction behind it.
#[test]
fn text_above_the_limit(rt: HostRuntime) -> Result<(), Fail> {
    let alloc = rt.alloc();
    for (size, err) in [
        (1_048_576, "odr: text: line 1048577\n"),
        (1_048_577, "odr: text: too large\n"),
    ] {
        let text = vec![in alloc; b'\n'; size]?;
        let mut files = MemFiles::new(alloc, Vec::new(alloc));
        files.hold("text", text.as_slice())?;
        answers(&rt, alloc, &mut files, &["asm", "text", "elf"], 5, b"", err)?;
        assert!(rt; files.look("elf").is_none());
    }
    Ok(())
}

/// Texts with their programs.
static PROGRAMS: [(&[u8], Program); 18] = [
    (HELLO_TEXT, HELLO),
    (LOST_UPDATE_TEXT, LOST_UPDATE),
    (LOCKED_TEXT, LOCKED),
    (STORE_BUFFERING_TEXT, STORE_BUFFERING),
    (BYTES_MERGE_TEXT, BYTES_MERGE),
    (MISALIGNED_STORE_TEXT, MISALIGNED_STORE),
    (STORE_CONDITIONAL_PAIRS_TEXT, STORE_CONDITIONAL_PAIRS),
    (DIVIDE_TEXT, DIVIDE),
    (COMPUTED_ADDRESS_TEXT, COMPUTED_ADDRESS),
    (RACING_FAULT_TEXT, RACING_FAULT),
    (DEADLOCK_TEXT, DEADLOCK),
    (TAPE_TEXT, TAPE),
    (SEEDED_CUT_TEXT, SEEDED_CUT),
    (UNKNOWN_CALL_TEXT, UNKNOWN_CALL),
    (EIGHT_THREADS_TEXT, EIGHT_THREADS),
    (KEPT_LOCK_TEXT, KEPT_LOCK),
    (NO_CODE_TEXT, NO_CODE),
    (BREAKPOINT_TEXT, BREAKPOINT),
];

/// The file of a program: the file header of hello with the number of segments, their headers, and their bytes.
fn file_of(alloc: Global, program: &Program) -> Result<Vec<u8>, AllocError> {
    let text_len = program.words.len().min(1000) as u32 * 4;
    let data_len = program.data.len().min(65536) as u32;
    let segments = if data_len == 0 { 1 } else { 2 };
    let offset: u32 = if data_len == 0 { 84 } else { 116 };
    let mut file = HELLO_FILE[..44].to_vec(alloc)?;
    file.extend_from_slice(&[segments, 0, 0, 0, 0, 0, 0, 0])?;
    for field in [1, offset, 0x1_0000, 0x1_0000, text_len, text_len, 5, 4] {
        file.extend_from_slice(&u32::to_le_bytes(field))?;
    }
    if data_len != 0 {
        let start = offset + text_len;
        for field in [1, start, 0x10_0000, 0x10_0000, data_len, data_len, 6, 4] {
            file.extend_from_slice(&u32::to_le_bytes(field))?;
        }
    }
    for word in program.words {
        file.extend_from_slice(&word.to_le_bytes())?;
    }
    file.extend_from_slice(program.data)?;
    Ok(file)
}

/// Assembles a text, which prints this line.
fn assembled(rt: &impl Abort, alloc: Global, text: &[u8], line: &[u8]) -> Result<MemFiles, Fail> {
    let mut files = MemFiles::new(alloc, Vec::new(alloc));
    let lines = bytes_of(alloc, "text.s", text, &[])?;
    files.hold("text.s", lines.as_slice())?;
    answers(rt, alloc, &mut files, &WORDS, 0, line, "")?;
    Ok(files)
}

#[test]
fn programs_have_their_files(rt: HostRuntime) -> Result<(), Fail> {
    let alloc = rt.alloc();
    for (text, program) in &PROGRAMS {
        let file = file_of(alloc, program)?;
        let line = format!(in alloc; "{} bytes\n", file.len())?;
        let files = assembled(&rt, alloc, text, line.as_bytes())?;
        assert!(rt; files.look("elf") == Some(file.as_slice()), "{line}");
    }
    Ok(())
}

/// The first two instructions, `la a0, ENTRY`, of programs whose worker begins at 0x10048 and at 0x10080.
const AT_48: [u8; 8] = [0x37, 0x05, 0x01, 0x00, 0x13, 0x05, 0x85, 0x04];

const AT_80: [u8; 8] = [0x37, 0x05, 0x01, 0x00, 0x13, 0x05, 0x05, 0x08];

/// Compares the first two instructions of a program of two parts.
fn begins_with(rt: &impl Abort, files: &MemFiles, front: &[u8]) {
    match files.look("elf") {
        None => assert!(rt; false, "nothing was saved"),
        Some(file) => {
            assert!(rt; file.len() > 124);
            assert_eq!(rt; &file[116..124], front);
        }
    }
}

#[test]
fn workers_begin_at_their_entries(rt: HostRuntime) -> Result<(), Fail> {
    let alloc = rt.alloc();
    let files = assembled(&rt, alloc, DIVIDE_LEAST, b"220 bytes\n")?;
    begins_with(&rt, &files, &AT_48);
    let files = assembled(&rt, alloc, TWELVE_CELLS, b"344 bytes\n")?;
    begins_with(&rt, &files, &AT_80);
    Ok(())
}

/// Texts with the line that they print.
static SIZES: [(&[u8], &[u8], &[u8]); 4] = [
    (ACCESS_LIMIT, b"", b"152 bytes\n"),
    (DEMO_FRONT, b"0", b"377 bytes\n"),
    (DEMO_FRONT, b"5", b"377 bytes\n"),
    (DEMO_FRONT, b"40", b"377 bytes\n"),
];

#[test]
fn programs_have_their_sizes(rt: HostRuntime) -> Result<(), Fail> {
    let alloc = rt.alloc();
    for (text, rounds, line) in &SIZES {
        let mut whole = text.to_vec(alloc)?;
        if !rounds.is_empty() {
            whole.extend_from_slice(rounds)?;
            whole.extend_from_slice(DEMO_REST)?;
        }
        assembled(&rt, alloc, whole.as_slice(), line)?;
    }
    Ok(())
}
