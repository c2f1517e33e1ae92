//! Shifts by amounts below the width, at it and past it. A row has the width, what is shifted, amounts, and the value
//! with each.

use crate::binary::compare;
use bv_terms::node::BinOp;
use std::test::Fail;

/// Amounts of one bit.
const SINGLE: &[u64] = &[0, 1];

/// Amounts of 8 bits.
const BYTES: &[u64] = &[0, 1, 5, 7, 8, 0xff];

/// Amounts of 32 bits.
const WORDS: &[u64] = &[0, 1, 0xd, 0x1f, 0x20, 0x8000_0001, 0xffff_ffff];

/// Amounts of 64 bits.
const DOUBLES: &[u64] = &[0, 1, 0x1d, 0x3f, 0x40, 0x1_0000_0000, 0xffff_ffff_ffff_ffff];

/// Shifts to the left.
static LEFT: [(u8, u64, &[u64], &[u64]); 14] = [
    (1, 0, SINGLE, &[0, 0]),
    (1, 1, SINGLE, &[1, 0]),
    (8, 0, BYTES, &[0, 0, 0, 0, 0, 0]),
    (8, 1, BYTES, &[1, 2, 0x20, 0x80, 0, 0]),
    (8, 0xff, BYTES, &[0xff, 0xfe, 0xe0, 0x80, 0, 0]),
    (8, 0xa5, BYTES, &[0xa5, 0x4a, 0xa0, 0x80, 0, 0]),
    (32, 0, WORDS, &[0, 0, 0, 0, 0, 0, 0]),
    (32, 1, WORDS, &[1, 2, 0x2000, 0x8000_0000, 0, 0, 0]),
    (
        32,
        0xffff_ffff,
        WORDS,
        &[0xffff_ffff, 0xffff_fffe, 0xffff_e000, 0x8000_0000, 0, 0, 0],
    ),
    (
        32,
        0x89ab_cdef,
        WORDS,
        &[0x89ab_cdef, 0x1357_9bde, 0x79bd_e000, 0x8000_0000, 0, 0, 0],
    ),
    (64, 0, DOUBLES, &[0, 0, 0, 0, 0, 0, 0]),
    (
        64,
        1,
        DOUBLES,
        &[1, 2, 0x2000_0000, 0x8000_0000_0000_0000, 0, 0, 0],
    ),
    (
        64,
        0xffff_ffff_ffff_ffff,
        DOUBLES,
        &[
            0xffff_ffff_ffff_ffff,
            0xffff_ffff_ffff_fffe,
            0xffff_ffff_e000_0000,
            0x8000_0000_0000_0000,
            0,
            0,
            0,
        ],
    ),
    (
        64,
        0xfedc_ba98_7654_3210,
        DOUBLES,
        &[
            0xfedc_ba98_7654_3210,
            0xfdb9_7530_eca8_6420,
            0xeca_8642_0000_0000,
            0,
            0,
            0,
            0,
        ],
    ),
];

/// Shifts to the right with zeros.
static RIGHT: [(u8, u64, &[u64], &[u64]); 14] = [
    (1, 0, SINGLE, &[0, 0]),
    (1, 1, SINGLE, &[1, 0]),
    (8, 0, BYTES, &[0, 0, 0, 0, 0, 0]),
    (8, 1, BYTES, &[1, 0, 0, 0, 0, 0]),
    (8, 0xff, BYTES, &[0xff, 0x7f, 7, 1, 0, 0]),
    (8, 0xa5, BYTES, &[0xa5, 0x52, 5, 1, 0, 0]),
    (32, 0, WORDS, &[0, 0, 0, 0, 0, 0, 0]),
    (32, 1, WORDS, &[1, 0, 0, 0, 0, 0, 0]),
    (
        32,
        0xffff_ffff,
        WORDS,
        &[0xffff_ffff, 0x7fff_ffff, 0x7_ffff, 1, 0, 0, 0],
    ),
    (
        32,
        0x89ab_cdef,
        WORDS,
        &[0x89ab_cdef, 0x44d5_e6f7, 0x4_4d5e, 1, 0, 0, 0],
    ),
    (64, 0, DOUBLES, &[0, 0, 0, 0, 0, 0, 0]),
    (64, 1, DOUBLES, &[1, 0, 0, 0, 0, 0, 0]),
    (
        64,
        0xffff_ffff_ffff_ffff,
        DOUBLES,
        &[
            0xffff_ffff_ffff_ffff,
            0x7fff_ffff_ffff_ffff,
            0x7_ffff_ffff,
            1,
            0,
            0,
            0,
        ],
    ),
    (
        64,
        0xfedc_ba98_7654_3210,
        DOUBLES,
        &[
            0xfedc_ba98_7654_3210,
            0x7f6e_5d4c_3b2a_1908,
            0x7_f6e5_d4c3,
            1,
            0,
            0,
            0,
        ],
    ),
];

/// Shifts to the right with copies of the highest bit.
static SIGNED_RIGHT: [(u8, u64, &[u64], &[u64]); 14] = [
    (1, 0, SINGLE, &[0, 0]),
    (1, 1, SINGLE, &[1, 1]),
    (8, 0, BYTES, &[0, 0, 0, 0, 0, 0]),
    (8, 1, BYTES, &[1, 0, 0, 0, 0, 0]),
    (8, 0xff, BYTES, &[0xff, 0xff, 0xff, 0xff, 0xff, 0xff]),
    (8, 0xa5, BYTES, &[0xa5, 0xd2, 0xfd, 0xff, 0xff, 0xff]),
    (32, 0, WORDS, &[0, 0, 0, 0, 0, 0, 0]),
    (32, 1, WORDS, &[1, 0, 0, 0, 0, 0, 0]),
    (
        32,
        0xffff_ffff,
        WORDS,
        &[
            0xffff_ffff,
            0xffff_ffff,
            0xffff_ffff,
            0xffff_ffff,
            0xffff_ffff,
            0xffff_ffff,
            0xffff_ffff,
        ],
    ),
    (
        32,
        0x89ab_cdef,
        WORDS,
        &[
            0x89ab_cdef,
            0xc4d5_e6f7,
            0xfffc_4d5e,
            0xffff_ffff,
            0xffff_ffff,
            0xffff_ffff,
            0xffff_ffff,
        ],
    ),
    (64, 0, DOUBLES, &[0, 0, 0, 0, 0, 0, 0]),
    (64, 1, DOUBLES, &[1, 0, 0, 0, 0, 0, 0]),
    (
        64,
        0xffff_ffff_ffff_ffff,
        DOUBLES,
        &[
            0xffff_ffff_ffff_ffff,
            0xffff_ffff_ffff_ffff,
            0xffff_ffff_ffff_ffff,
            0xffff_ffff_ffff_ffff,
            0xffff_ffff_ffff_ffff,
            0xffff_ffff_ffff_ffff,
            0xffff_ffff_ffff_ffff,
        ],
    ),
    (
        64,
        0xfedc_ba98_7654_3210,
        DOUBLES,
        &[
            0xfedc_ba98_7654_3210,
            0xff6e_5d4c_3b2a_1908,
            0xffff_ffff_f6e5_d4c3,
            0xffff_ffff_ffff_ffff,
            0xffff_ffff_ffff_ffff,
            0xffff_ffff_ffff_ffff,
            0xffff_ffff_ffff_ffff,
        ],
    ),
];

#[test]
fn shifts_to_the_left(rt: HostRuntime) -> Result<(), Fail> {
    compare(&rt, rt.alloc(), BinOp::Shl, &LEFT)
}

#[test]
fn shifts_to_the_right(rt: HostRuntime) -> Result<(), Fail> {
    compare(&rt, rt.alloc(), BinOp::Lshr, &RIGHT)
}

#[test]
fn signed_shifts_to_the_right(rt: HostRuntime) -> Result<(), Fail> {
    compare(&rt, rt.alloc(), BinOp::Ashr, &SIGNED_RIGHT)
}
