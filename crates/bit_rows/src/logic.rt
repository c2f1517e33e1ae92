//! Operations bit by bit, comparisons, and terms put in front of others. A row has the width, the left operand, right
//! ones, and the value with each.

use crate::binary::compare;
use bv_terms::node::BinOp;
use std::test::Fail;

/// Right operands of one bit.
const SINGLE: &[u64] = &[0, 1];

/// Right operands of 8 bits.
const BYTES: &[u64] = &[0, 1, 0xff, 0x3c];

/// Right operands of 32 bits.
const WORDS: &[u64] = &[0, 1, 0xffff_ffff, 0x123_4576];

/// Right operands of 64 bits.
const DOUBLES: &[u64] = &[0, 1, 0xffff_ffff_ffff_ffff, 0xf1e_2d3c_4b5a_6978];

/// Bits set in both.
static BOTH: [(u8, u64, &[u64], &[u64]); 14] = [
    (1, 0, SINGLE, &[0, 0]),
    (1, 1, SINGLE, &[0, 1]),
    (8, 0, BYTES, &[0, 0, 0, 0]),
    (8, 1, BYTES, &[0, 1, 1, 0]),
    (8, 0xff, BYTES, &[0, 1, 0xff, 0x3c]),
    (8, 0xa5, BYTES, &[0, 1, 0xa5, 0x24]),
    (32, 0, WORDS, &[0, 0, 0, 0]),
    (32, 1, WORDS, &[0, 1, 1, 0]),
    (32, 0xffff_ffff, WORDS, &[0, 1, 0xffff_ffff, 0x123_4576]),
    (32, 0x89ab_cdef, WORDS, &[0, 1, 0x89ab_cdef, 0x123_4566]),
    (64, 0, DOUBLES, &[0, 0, 0, 0]),
    (64, 1, DOUBLES, &[0, 1, 1, 0]),
    (
        64,
        0xffff_ffff_ffff_ffff,
        DOUBLES,
        &[0, 1, 0xffff_ffff_ffff_ffff, 0xf1e_2d3c_4b5a_6978],
    ),
    (
        64,
        0xfedc_ba98_7654_3210,
        DOUBLES,
        &[0, 0, 0xfedc_ba98_7654_3210, 0xe1c_2818_4250_2010],
    ),
];

/// Bits set in either.
static EITHER: [(u8, u64, &[u64], &[u64]); 14] = [
    (1, 0, SINGLE, &[0, 1]),
    (1, 1, SINGLE, &[1, 1]),
    (8, 0, BYTES, &[0, 1, 0xff, 0x3c]),
    (8, 1, BYTES, &[1, 1, 0xff, 0x3d]),
    (8, 0xff, BYTES, &[0xff, 0xff, 0xff, 0xff]),
    (8, 0xa5, BYTES, &[0xa5, 0xa5, 0xff, 0xbd]),
    (32, 0, WORDS, &[0, 1, 0xffff_ffff, 0x123_4576]),
    (32, 1, WORDS, &[1, 1, 0xffff_ffff, 0x123_4577]),
    (
        32,
        0xffff_ffff,
        WORDS,
        &[0xffff_ffff, 0xffff_ffff, 0xffff_ffff, 0xffff_ffff],
    ),
    (
        32,
        0x89ab_cdef,
        WORDS,
        &[0x89ab_cdef, 0x89ab_cdef, 0xffff_ffff, 0x89ab_cdff],
    ),
    (
        64,
        0,
        DOUBLES,
        &[0, 1, 0xffff_ffff_ffff_ffff, 0xf1e_2d3c_4b5a_6978],
    ),
    (
        64,
        1,
        DOUBLES,
        &[1, 1, 0xffff_ffff_ffff_ffff, 0xf1e_2d3c_4b5a_6979],
    ),
    (
        64,
        0xffff_ffff_ffff_ffff,
        DOUBLES,
        &[
            0xffff_ffff_ffff_ffff,
            0xffff_ffff_ffff_ffff,
            0xffff_ffff_ffff_ffff,
            0xffff_ffff_ffff_ffff,
        ],
    ),
    (
        64,
        0xfedc_ba98_7654_3210,
        DOUBLES,
        &[
            0xfedc_ba98_7654_3210,
            0xfedc_ba98_7654_3211,
            0xffff_ffff_ffff_ffff,
            0xffde_bfbc_7f5e_7b78,
        ],
    ),
];

/// Bits that differ.
static DIFFER: [(u8, u64, &[u64], &[u64]); 14] = [
    (1, 0, SINGLE, &[0, 1]),
    (1, 1, SINGLE, &[1, 0]),
    (8, 0, BYTES, &[0, 1, 0xff, 0x3c]),
    (8, 1, BYTES, &[1, 0, 0xfe, 0x3d]),
    (8, 0xff, BYTES, &[0xff, 0xfe, 0, 0xc3]),
    (8, 0xa5, BYTES, &[0xa5, 0xa4, 0x5a, 0x99]),
    (32, 0, WORDS, &[0, 1, 0xffff_ffff, 0x123_4576]),
    (32, 1, WORDS, &[1, 0, 0xffff_fffe, 0x123_4577]),
    (
        32,
        0xffff_ffff,
        WORDS,
        &[0xffff_ffff, 0xffff_fffe, 0, 0xfedc_ba89],
    ),
    (
        32,
        0x89ab_cdef,
        WORDS,
        &[0x89ab_cdef, 0x89ab_cdee, 0x7654_3210, 0x8888_8899],
    ),
    (
        64,
        0,
        DOUBLES,
        &[0, 1, 0xffff_ffff_ffff_ffff, 0xf1e_2d3c_4b5a_6978],
    ),
    (
        64,
        1,
        DOUBLES,
        &[1, 0, 0xffff_ffff_ffff_fffe, 0xf1e_2d3c_4b5a_6979],
    ),
    (
        64,
        0xffff_ffff_ffff_ffff,
        DOUBLES,
        &[
            0xffff_ffff_ffff_ffff,
            0xffff_ffff_ffff_fffe,
            0,
            0xf0e1_d2c3_b4a5_9687,
        ],
    ),
    (
        64,
        0xfedc_ba98_7654_3210,
        DOUBLES,
        &[
            0xfedc_ba98_7654_3210,
            0xfedc_ba98_7654_3211,
            0x123_4567_89ab_cdef,
            0xf1c2_97a4_3d0e_5b68,
        ],
    ),
];

/// Whether both are equal.
static EQUAL: [(u8, u64, &[u64], &[u64]); 14] = [
    (1, 0, SINGLE, &[1, 0]),
    (1, 1, SINGLE, &[0, 1]),
    (8, 0, BYTES, &[1, 0, 0, 0]),
    (8, 1, BYTES, &[0, 1, 0, 0]),
    (8, 0xff, BYTES, &[0, 0, 1, 0]),
    (8, 0xa5, BYTES, &[0, 0, 0, 0]),
    (32, 0, WORDS, &[1, 0, 0, 0]),
    (32, 1, WORDS, &[0, 1, 0, 0]),
    (32, 0xffff_ffff, WORDS, &[0, 0, 1, 0]),
    (32, 0x89ab_cdef, WORDS, &[0, 0, 0, 0]),
    (64, 0, DOUBLES, &[1, 0, 0, 0]),
    (64, 1, DOUBLES, &[0, 1, 0, 0]),
    (64, 0xffff_ffff_ffff_ffff, DOUBLES, &[0, 0, 1, 0]),
    (64, 0xfedc_ba98_7654_3210, DOUBLES, &[0, 0, 0, 0]),
];

/// Whether the left is below the right.
static BELOW: [(u8, u64, &[u64], &[u64]); 14] = [
    (1, 0, SINGLE, &[0, 1]),
    (1, 1, SINGLE, &[0, 0]),
    (8, 0, BYTES, &[0, 1, 1, 1]),
    (8, 1, BYTES, &[0, 0, 1, 1]),
    (8, 0xff, BYTES, &[0, 0, 0, 0]),
    (8, 0xa5, BYTES, &[0, 0, 1, 0]),
    (32, 0, WORDS, &[0, 1, 1, 1]),
    (32, 1, WORDS, &[0, 0, 1, 1]),
    (32, 0xffff_ffff, WORDS, &[0, 0, 0, 0]),
    (32, 0x89ab_cdef, WORDS, &[0, 0, 1, 0]),
    (64, 0, DOUBLES, &[0, 1, 1, 1]),
    (64, 1, DOUBLES, &[0, 0, 1, 1]),
    (64, 0xffff_ffff_ffff_ffff, DOUBLES, &[0, 0, 0, 0]),
    (64, 0xfedc_ba98_7654_3210, DOUBLES, &[0, 0, 1, 0]),
];

/// Whether the left is below the right in two's complement.
static SIGNED_BELOW: [(u8, u64, &[u64], &[u64]); 14] = [
    (1, 0, SINGLE, &[0, 0]),
    (1, 1, SINGLE, &[1, 0]),
    (8, 0, BYTES, &[0, 1, 0, 1]),
    (8, 1, BYTES, &[0, 0, 0, 1]),
    (8, 0xff, BYTES, &[1, 1, 0, 1]),
    (8, 0xa5, BYTES, &[1, 1, 1, 1]),
    (32, 0, WORDS, &[0, 1, 0, 1]),
    (32, 1, WORDS, &[0, 0, 0, 1]),
    (32, 0xffff_ffff, WORDS, &[1, 1, 0, 1]),
    (32, 0x89ab_cdef, WORDS, &[1, 1, 1, 1]),
    (64, 0, DOUBLES, &[0, 1, 0, 1]),
    (64, 1, DOUBLES, &[0, 0, 0, 1]),
    (64, 0xffff_ffff_ffff_ffff, DOUBLES, &[1, 1, 0, 1]),
    (64, 0xfedc_ba98_7654_3210, DOUBLES, &[1, 1, 1, 1]),
];

/// The left as the high part.
static JOINED: [(u8, u64, &[u64], &[u64]); 10] = [
    (1, 0, SINGLE, &[0, 1]),
    (1, 1, SINGLE, &[2, 3]),
    (8, 0, BYTES, &[0, 1, 0xff, 0x3c]),
    (8, 1, BYTES, &[0x100, 0x101, 0x1ff, 0x13c]),
    (8, 0xff, BYTES, &[0xff00, 0xff01, 0xffff, 0xff3c]),
    (8, 0xa5, BYTES, &[0xa500, 0xa501, 0xa5ff, 0xa53c]),
    (32, 0, WORDS, &[0, 1, 0xffff_ffff, 0x123_4576]),
    (
        32,
        1,
        WORDS,
        &[0x1_0000_0000, 0x1_0000_0001, 0x1_ffff_ffff, 0x1_0123_4576],
    ),
    (
        32,
        0xffff_ffff,
        WORDS,
        &[
            0xffff_ffff_0000_0000,
            0xffff_ffff_0000_0001,
            0xffff_ffff_ffff_ffff,
            0xffff_ffff_0123_4576,
        ],
    ),
    (
        32,
        0x89ab_cdef,
        WORDS,
        &[
            0x89ab_cdef_0000_0000,
            0x89ab_cdef_0000_0001,
            0x89ab_cdef_ffff_ffff,
            0x89ab_cdef_0123_4576,
        ],
    ),
];

#[test]
fn bits_of_both(rt: HostRuntime) -> Result<(), Fail> {
    compare(&rt, rt.alloc(), BinOp::And, &BOTH)
}

#[test]
fn bits_of_either(rt: HostRuntime) -> Result<(), Fail> {
    compare(&rt, rt.alloc(), BinOp::Or, &EITHER)
}

#[test]
fn bits_that_differ(rt: HostRuntime) -> Result<(), Fail> {
    compare(&rt, rt.alloc(), BinOp::Xor, &DIFFER)
}

#[test]
fn equality(rt: HostRuntime) -> Result<(), Fail> {
    compare(&rt, rt.alloc(), BinOp::Eq, &EQUAL)
}

#[test]
fn order(rt: HostRuntime) -> Result<(), Fail> {
    compare(&rt, rt.alloc(), BinOp::Ult, &BELOW)
}

#[test]
fn signed_order(rt: HostRuntime) -> Result<(), Fail> {
    compare(&rt, rt.alloc(), BinOp::Slt, &SIGNED_BELOW)
}

#[test]
fn joined_terms(rt: HostRuntime) -> Result<(), Fail> {
    compare(&rt, rt.alloc(), BinOp::Concat, &JOINED)
}
