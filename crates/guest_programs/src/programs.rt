//! The guest programs of the worked rows: each with its instructions and its data, and its text beside it.
//!
//! In a text a semicolon stands for the end of a line. The instructions were worked out from the RISC-V standard and
//! compared with an assembler's listings.

/// A program: its instructions, which lie from 0x10000 on, and its data, which lies from 0x100000 on.
#[derive(Clone, Copy)]
pub struct Program {
    pub words: &'static [u32],
    pub data: &'static [u8],
}

/// Writes `hi` and a line feed, and exits.
pub const HELLO: Program = Program {
    words: &[
        0x00100537, 0x00050513, 0x00300593, 0x00800893, 0x00000073, 0x00000513, 0x00100893,
        0x00000073,
    ],
    data: b"hi\n",
};

pub const HELLO_TEXT: &[u8] = b"la a0, msg; li a1, 3; li a7, 8; ecall; li a0, 0; li a7, 1; ecall; \
    .data; msg: .byte 104 105 10";

/// Two workers add 1 without a lock, and the sum is written as a digit.
pub const LOST_UPDATE: Program = Program {
    words: &[
        0x00010537, 0x06450513, 0x00000593, 0x00300893, 0x00000073, 0x00010537, 0x06450513,
        0x00000073, 0x00100513, 0x00400893, 0x00000073, 0x00200513, 0x00000073, 0x00100437,
        0x00040413, 0x00042483, 0x03048493, 0x00940223, 0x00440513, 0x00100593, 0x00800893,
        0x00000073, 0x00000513, 0x00100893, 0x00000073, 0x00100437, 0x00040413, 0x00042483,
        0x00148493, 0x00942023, 0x00200893, 0x00000073,
    ],
    data: &[0; 8],
};

pub const LOST_UPDATE_TEXT: &[u8] =
    b"la a0, work; li a1, 0; li a7, 3; ecall; la a0, work; ecall; li a0, 1; li a7, 4; ecall; \
    li a0, 2; ecall; la s0, cnt; lw s1, 0(s0); addi s1, s1, 48; sb s1, 4(s0); addi a0, s0, 4; \
    li a1, 1; li a7, 8; ecall; li a0, 0; li a7, 1; ecall; \
    work: la s0, cnt; lw s1, 0(s0); addi s1, s1, 1; sw s1, 0(s0); li a7, 2; ecall; \
    .data; cnt: .word 0; buf: .word 0";

/// Two workers add 1 under a lock, and the sum is written as a digit.
pub const LOCKED: Program = Program {
    words: &[
        0x00010537, 0x06450513, 0x00000593, 0x00300893, 0x00000073, 0x00010537, 0x06450513,
        0x00000073, 0x00100513, 0x00400893, 0x00000073, 0x00200513, 0x00000073, 0x00100437,
        0x00040413, 0x00042483, 0x03048493, 0x00940223, 0x00440513, 0x00100593, 0x00800893,
        0x00000073, 0x00000513, 0x00100893, 0x00000073, 0x00000513, 0x00500893, 0x00000073,
        0x00100437, 0x00040413, 0x00042483, 0x00148493, 0x00942023, 0x00600893, 0x00000073,
        0x00200893, 0x00000073,
    ],
    data: &[0; 8],
};

pub const LOCKED_TEXT: &[u8] =
    b"la a0, work; li a1, 0; li a7, 3; ecall; la a0, work; ecall; li a0, 1; li a7, 4; ecall; \
    li a0, 2; ecall; la s0, cnt; lw s1, 0(s0); addi s1, s1, 48; sb s1, 4(s0); addi a0, s0, 4; \
    li a1, 1; li a7, 8; ecall; li a0, 0; li a7, 1; ecall; \
    work: li a0, 0; li a7, 5; ecall; la s0, cnt; lw s1, 0(s0); addi s1, s1, 1; sw s1, 0(s0); \
    li a7, 6; ecall; li a7, 2; ecall; \
    .data; cnt: .word 0; buf: .word 0";

/// Each of two workers stores one word and branches on the other.
pub const STORE_BUFFERING: Program = Program {
    words: &[
        0x00010537, 0x04050513, 0x00000593, 0x00300893, 0x00000073, 0x00010537, 0x06050513,
        0x00000073, 0x00100513, 0x00400893, 0x00000073, 0x00200513, 0x00000073, 0x00000513,
        0x00100893, 0x00000073, 0x00100437, 0x00040413, 0x00100493, 0x00942023, 0x00442903,
        0x00091263, 0x00200893, 0x00000073, 0x00100437, 0x00040413, 0x00100493, 0x00942223,
        0x00042903, 0x00091263, 0x00200893, 0x00000073,
    ],
    data: &[0; 8],
};

pub const STORE_BUFFERING_TEXT: &[u8] =
    b"la a0, wa; li a1, 0; li a7, 3; ecall; la a0, wb; ecall; li a0, 1; li a7, 4; ecall; li a0, 2; \
    ecall; li a0, 0; li a7, 1; ecall; \
    wa: la s0, x; li s1, 1; sw s1, 0(s0); lw s2, 4(s0); bne s2, zero, da; \
    da: li a7, 2; ecall; \
    wb: la s0, x; li s1, 1; sw s1, 4(s0); lw s2, 0(s0); bne s2, zero, db; \
    db: li a7, 2; ecall; \
    .data; x: .word 0; y: .word 0";

/// Two workers store bytes of one word, which is written.
pub const BYTES_MERGE: Program = Program {
    words: &[
        0x00010537, 0x04c50513, 0x00000593, 0x00300893, 0x00000073, 0x00010537, 0x06450513,
        0x00000073, 0x00100437, 0x00040413, 0x00042483, 0x00942223, 0x00440513, 0x00400593,
        0x00800893, 0x00000073, 0x00000513, 0x00100893, 0x00000073, 0x00100437, 0x00040413,
        0x04100493, 0x00940023, 0x00200893, 0x00000073, 0x00100437, 0x00040413, 0x04200493,
        0x009400a3, 0x00200893, 0x00000073,
    ],
    data: &[0x2e, 0x2e, 0x2e, 0x2e, 0x00, 0x00, 0x00, 0x00],
};

pub const BYTES_MERGE_TEXT: &[u8] =
    b"la a0, w1; li a1, 0; li a7, 3; ecall; la a0, w2; ecall; la s0, word; lw s1, 0(s0); \
    sw s1, 4(s0); addi a0, s0, 4; li a1, 4; li a7, 8; ecall; li a0, 0; li a7, 1; ecall; \
    w1: la s0, word; li s1, 65; sb s1, 0(s0); li a7, 2; ecall; \
    w2: la s0, word; li s1, 66; sb s1, 1(s0); li a7, 2; ecall; \
    .data; word: .byte 46 46 46 46; buf: .word 0";

/// A worker stores a word across two words, and two of its bytes are written.
pub const MISALIGNED_STORE: Program = Program {
    words: &[
        0x00010537, 0x04850513, 0x00000593, 0x00300893, 0x00000073, 0x00100437, 0x00040413,
        0x00340483, 0x00440903, 0x00940423, 0x012404a3, 0x00840513, 0x00200593, 0x00800893,
        0x00000073, 0x00000513, 0x00100893, 0x00000073, 0x00100437, 0x00040413, 0x444344b7,
        0x24148493, 0x00942123, 0x00200893, 0x00000073,
    ],
    data: &[
        0x2e, 0x2e, 0x2e, 0x2e, 0x2e, 0x2e, 0x2e, 0x2e, 0x00, 0x00, 0x00, 0x00,
    ],
};

pub const MISALIGNED_STORE_TEXT: &[u8] =
    b"la a0, w1; li a1, 0; li a7, 3; ecall; la s0, x; lb s1, 3(s0); lb s2, 4(s0); sb s1, 8(s0); \
    sb s2, 9(s0); addi a0, s0, 8; li a1, 2; li a7, 8; ecall; li a0, 0; li a7, 1; ecall; \
    w1: la s0, x; lui s1, 279604; addi s1, s1, 577; sw s1, 2(s0); li a7, 2; ecall; \
    .data; x: .byte 46 46 46 46 46 46 46 46; buf: .word 0";

/// Two workers add 1 by load-reserved and store-conditional, and branch on its success.
pub const STORE_CONDITIONAL_PAIRS: Program = Program {
    words: &[
        0x00010537, 0x06450513, 0x00000593, 0x00300893, 0x00000073, 0x00010537, 0x06450513,
        0x00000073, 0x00100513, 0x00400893, 0x00000073, 0x00200513, 0x00000073, 0x00100437,
        0x00040413, 0x00042483, 0x03048493, 0x00940223, 0x00440513, 0x00100593, 0x00800893,
        0x00000073, 0x00000513, 0x00100893, 0x00000073, 0x00100437, 0x00040413, 0x100424af,
        0x00148493, 0x1894292f, 0x00091263, 0x00200893, 0x00000073,
    ],
    data: &[0; 8],
};

pub const STORE_CONDITIONAL_PAIRS_TEXT: &[u8] =
    b"la a0, work; li a1, 0; li a7, 3; ecall; la a0, work; ecall; li a0, 1; li a7, 4; ecall; \
    li a0, 2; ecall; la s0, cnt; lw s1, 0(s0); addi s1, s1, 48; sb s1, 4(s0); addi a0, s0, 4; \
    li a1, 1; li a7, 8; ecall; li a0, 0; li a7, 1; ecall; \
    work: la s0, cnt; lr.w s1, (s0); addi s1, s1, 1; sc.w s2, s1, (s0); bne s2, zero, away; \
    away: li a7, 2; ecall; \
    .data; cnt: .word 0; buf: .word 0";

/// -7 is divided by a word that a worker sets to 0, and the quotient is written.
pub const DIVIDE: Program = Program {
    words: &[
        0x00010537, 0x04850513, 0x00000593, 0x00300893, 0x00000073, 0x00100437, 0x00040413,
        0x00042483, 0xff900913, 0x02994933, 0x01240223, 0x00440513, 0x00100593, 0x00800893,
        0x00000073, 0x00000513, 0x00100893, 0x00000073, 0x00100437, 0x00040413, 0x00042023,
        0x00200893, 0x00000073,
    ],
    data: &[0x02, 0x00, 0x00, 0x00, 0x00, 0x00, 0x00, 0x00],
};

pub const DIVIDE_TEXT: &[u8] =
    b"la a0, w1; li a1, 0; li a7, 3; ecall; la s0, d; lw s1, 0(s0); li s2, -7; div s2, s2, s1; \
    sb s2, 4(s0); addi a0, s0, 4; li a1, 1; li a7, 8; ecall; li a0, 0; li a7, 1; ecall; \
    w1: la s0, d; sw zero, 0(s0); li a7, 2; ecall; \
    .data; d: .word 2; buf: .word 0";

/// A byte is stored at an index that a worker sets, and another is written.
pub const COMPUTED_ADDRESS: Program = Program {
    words: &[
        0x00010537, 0x05050513, 0x00000593, 0x00300893, 0x00000073, 0x00100437, 0x00040413,
        0x00042483, 0x00940933, 0x05a00993, 0x01390223, 0x00844a03, 0x01440623, 0x00c40513,
        0x00100593, 0x00800893, 0x00000073, 0x00000513, 0x00100893, 0x00000073, 0x00100437,
        0x00040413, 0x00400493, 0x00942023, 0x00200893, 0x00000073,
    ],
    data: &[
        0x00, 0x00, 0x00, 0x00, 0x61, 0x62, 0x63, 0x64, 0x65, 0x66, 0x67, 0x68, 0x00, 0x00, 0x00,
        0x00,
    ],
};

pub const COMPUTED_ADDRESS_TEXT: &[u8] =
    b"la a0, w1; li a1, 0; li a7, 3; ecall; la s0, idx; lw s1, 0(s0); add s2, s0, s1; li s3, 90; \
    sb s3, 4(s2); lbu s4, 8(s0); sb s4, 12(s0); addi a0, s0, 12; li a1, 1; li a7, 8; ecall; \
    li a0, 0; li a7, 1; ecall; \
    w1: la s0, idx; li s1, 4; sw s1, 0(s0); li a7, 2; ecall; \
    .data; idx: .word 0; tab: .byte 97 98 99 100 101 102 103 104; buf: .word 0";

/// A word is loaded at an address that a worker sets to 0.
pub const RACING_FAULT: Program = Program {
    words: &[
        0x00010537, 0x03050513, 0x00000593, 0x00300893, 0x00000073, 0x00100437, 0x00040413,
        0x00042483, 0x0004a903, 0x00000513, 0x00100893, 0x00000073, 0x00100437, 0x00040413,
        0x00042023, 0x00200893, 0x00000073,
    ],
    data: &[0x04, 0x00, 0x10, 0x00, 0x00, 0x00, 0x00, 0x00],
};

pub const RACING_FAULT_TEXT: &[u8] =
    b"la a0, w1; li a1, 0; li a7, 3; ecall; la s0, p; lw s1, 0(s0); lw s2, 0(s1); li a0, 0; \
    li a7, 1; ecall; \
    w1: la s0, p; sw zero, 0(s0); li a7, 2; ecall; \
    .data; p: .word 1048580; v: .word 0";

/// Two workers lock two mutexes in opposite orders, and the first is joined.
pub const DEADLOCK: Program = Program {
    words: &[
        0x00010537, 0x03450513, 0x00300893, 0x00000073, 0x00010537, 0x05050513, 0x00000073,
        0x00100513, 0x00400893, 0x00000073, 0x00000513, 0x00100893, 0x00000073, 0x00000513,
        0x00500893, 0x00000073, 0x00100513, 0x00000073, 0x00200893, 0x00000073, 0x00100513,
        0x00500893, 0x00000073, 0x00000513, 0x00000073, 0x00200893, 0x00000073,
    ],
    data: &[],
};

pub const DEADLOCK_TEXT: &[u8] =
    b"la a0, w1; li a7, 3; ecall; la a0, w2; ecall; li a0, 1; li a7, 4; ecall; li a0, 0; li a7, 1; \
    ecall; \
    w1: li a0, 0; li a7, 5; ecall; li a0, 1; ecall; li a7, 2; ecall; \
    w2: li a0, 1; li a7, 5; ecall; li a0, 0; ecall; li a7, 2; ecall";

/// Three reads of a tape of six bytes, and three writes.
pub const TAPE: Program = Program {
    words: &[
        0x00100537, 0x00050513, 0x00400593, 0x00900893, 0x00000073, 0x00100537, 0x00050513,
        0x00000073, 0x00100537, 0x00050513, 0x00000073, 0x00100537, 0x00050513, 0x00000593,
        0x00800893, 0x00000073, 0x00100537, 0x00050513, 0x10000593, 0x00000073, 0x00100537,
        0x00050513, 0x10100593, 0x00000073, 0x00200893, 0x00000073,
    ],
    data: &[0; 256],
};

pub const TAPE_TEXT: &[u8] =
    b"la a0, buf; li a1, 4; li a7, 9; ecall; la a0, buf; ecall; la a0, buf; ecall; la a0, buf; \
    li a1, 0; li a7, 8; ecall; la a0, buf; li a1, 256; ecall; la a0, buf; li a1, 257; ecall; \
    li a7, 2; ecall; \
    .data; buf: .zero 256";

/// A thread and its child that loop.
pub const SEEDED_CUT: Program = Program {
    words: &[
        0x00010537, 0x01450513, 0x00300893, 0x00000073, 0x0000006f, 0x0000006f,
    ],
    data: &[],
};

pub const SEEDED_CUT_TEXT: &[u8] = b"la a0, work; li a7, 3; ecall; \
    loop: j loop; \
    work: j work";

/// A call of number 99.
pub const UNKNOWN_CALL: Program = Program {
    words: &[0x06300893, 0x00000073, 0x00200893, 0x00000073],
    data: &[],
};

pub const UNKNOWN_CALL_TEXT: &[u8] = b"li a7, 99; ecall; li a7, 2; ecall";

/// Eight spawns, of which the last is one too many.
pub const EIGHT_THREADS: Program = Program {
    words: &[
        0x00010437, 0x05440413, 0x00300893, 0x00040513, 0x00000073, 0x00040513, 0x00000073,
        0x00040513, 0x00000073, 0x00040513, 0x00000073, 0x00040513, 0x00000073, 0x00040513,
        0x00000073, 0x00040513, 0x00000073, 0x00040513, 0x00000073, 0x00200893, 0x00000073,
        0x00200893, 0x00000073,
    ],
    data: &[],
};

pub const EIGHT_THREADS_TEXT: &[u8] =
    b"la s0, work; li a7, 3; addi a0, s0, 0; ecall; addi a0, s0, 0; ecall; addi a0, s0, 0; ecall; \
    addi a0, s0, 0; ecall; addi a0, s0, 0; ecall; addi a0, s0, 0; ecall; addi a0, s0, 0; ecall; \
    addi a0, s0, 0; ecall; li a7, 2; ecall; \
    work: li a7, 2; ecall";

/// A thread ends while it holds a mutex that another then wants.
pub const KEPT_LOCK: Program = Program {
    words: &[
        0x00010537, 0x02450513, 0x00300893, 0x00000073, 0x00400893, 0x00000073, 0x00000513,
        0x00500893, 0x00000073, 0x00000513, 0x00500893, 0x00000073, 0x00200893, 0x00000073,
    ],
    data: &[],
};

pub const KEPT_LOCK_TEXT: &[u8] =
    b"la a0, w1; li a7, 3; ecall; li a7, 4; ecall; li a0, 0; li a7, 5; ecall; \
    w1: li a0, 0; li a7, 5; ecall; li a7, 2; ecall";

/// A jump to where nothing can be fetched.
pub const NO_CODE: Program = Program {
    words: &[0x00400067],
    data: &[],
};

pub const NO_CODE_TEXT: &[u8] = b"jalr zero, 4(zero)";

/// A breakpoint at the second instruction.
pub const BREAKPOINT: Program = Program {
    words: &[0x00100513, 0x00100073],
    data: &[],
};

pub const BREAKPOINT_TEXT: &[u8] = b"addi a0, zero, 1; ebreak";
