//! Sums, differences, products, quotients and remainders. A row has the width, the left operand, right ones, and the
//! value with each.

use crate::binary::compare;
use bv_terms::node::BinOp;
use std::test::Fail;

/// Right operands of one bit.
const SINGLE: &[u64] = &[0, 1];

/// Right operands of 8 bits.
const BYTES: &[u64] = &[0, 1, 0xff, 0x3c];

/// Right operands of 32 bits.
const WORDS: &[u64] = &[0, 1, 0xffff_ffff, 0x123_4576];

/// Right operands of 64 bits.
const DOUBLES: &[u64] = &[0, 1, 0xffff_ffff_ffff_ffff, 0xf1e_2d3c_4b5a_6978];

/// Sums.
static SUMS: [(u8, u64, &[u64], &[u64]); 14] = [
    (1, 0, SINGLE, &[0, 1]),
    (1, 1, SINGLE, &[1, 0]),
    (8, 0, BYTES, &[0, 1, 0xff, 0x3c]),
    (8, 1, BYTES, &[1, 2, 0, 0x3d]),
    (8, 0xff, BYTES, &[0xff, 0, 0xfe, 0x3b]),
    (8, 0xa5, BYTES, &[0xa5, 0xa6, 0xa4, 0xe1]),
    (32, 0, WORDS, &[0, 1, 0xffff_ffff, 0x123_4576]),
    (32, 1, WORDS, &[1, 2, 0, 0x123_4577]),
    (
        32,
        0xffff_ffff,
        WORDS,
        &[0xffff_ffff, 0, 0xffff_fffe, 0x123_4575],
    ),
    (
        32,
        0x89ab_cdef,
        WORDS,
        &[0x89ab_cdef, 0x89ab_cdf0, 0x89ab_cdee, 0x8acf_1365],
    ),
    (
        64,
        0,
        DOUBLES,
        &[0, 1, 0xffff_ffff_ffff_ffff, 0xf1e_2d3c_4b5a_6978],
    ),
    (64, 1, DOUBLES, &[1, 2, 0, 0xf1e_2d3c_4b5a_6979]),
    (
        64,
        0xffff_ffff_ffff_ffff,
        DOUBLES,
        &[
            0xffff_ffff_ffff_ffff,
            0,
            0xffff_ffff_ffff_fffe,
            0xf1e_2d3c_4b5a_6977,
        ],
    ),
    (
        64,
        0xfedc_ba98_7654_3210,
        DOUBLES,
        &[
            0xfedc_ba98_7654_3210,
            0xfedc_ba98_7654_3211,
            0xfedc_ba98_7654_320f,
            0xdfa_e7d4_c1ae_9b88,
        ],
    ),
];

/// Differences.
static DIFFERENCES: [(u8, u64, &[u64], &[u64]); 14] = [
    (1, 0, SINGLE, &[0, 1]),
    (1, 1, SINGLE, &[1, 0]),
    (8, 0, BYTES, &[0, 0xff, 1, 0xc4]),
    (8, 1, BYTES, &[1, 0, 2, 0xc5]),
    (8, 0xff, BYTES, &[0xff, 0xfe, 0, 0xc3]),
    (8, 0xa5, BYTES, &[0xa5, 0xa4, 0xa6, 0x69]),
    (32, 0, WORDS, &[0, 0xffff_ffff, 1, 0xfedc_ba8a]),
    (32, 1, WORDS, &[1, 0, 2, 0xfedc_ba8b]),
    (
        32,
        0xffff_ffff,
        WORDS,
        &[0xffff_ffff, 0xffff_fffe, 0, 0xfedc_ba89],
    ),
    (
        32,
        0x89ab_cdef,
        WORDS,
        &[0x89ab_cdef, 0x89ab_cdee, 0x89ab_cdf0, 0x8888_8879],
    ),
    (
        64,
        0,
        DOUBLES,
        &[0, 0xffff_ffff_ffff_ffff, 1, 0xf0e1_d2c3_b4a5_9688],
    ),
    (64, 1, DOUBLES, &[1, 0, 2, 0xf0e1_d2c3_b4a5_9689]),
    (
        64,
        0xffff_ffff_ffff_ffff,
        DOUBLES,
        &[
            0xffff_ffff_ffff_ffff,
            0xffff_ffff_ffff_fffe,
            0,
            0xf0e1_d2c3_b4a5_9687,
        ],
    ),
    (
        64,
        0xfedc_ba98_7654_3210,
        DOUBLES,
        &[
            0xfedc_ba98_7654_3210,
            0xfedc_ba98_7654_320f,
            0xfedc_ba98_7654_3211,
            0xefbe_8d5c_2af9_c898,
        ],
    ),
];

/// Products.
static PRODUCTS: [(u8, u64, &[u64], &[u64]); 14] = [
    (1, 0, SINGLE, &[0, 0]),
    (1, 1, SINGLE, &[0, 1]),
    (8, 0, BYTES, &[0, 0, 0, 0]),
    (8, 1, BYTES, &[0, 1, 0xff, 0x3c]),
    (8, 0xff, BYTES, &[0, 0xff, 1, 0xc4]),
    (8, 0xa5, BYTES, &[0, 0xa5, 0x5b, 0xac]),
    (32, 0, WORDS, &[0, 0, 0, 0]),
    (32, 1, WORDS, &[0, 1, 0xffff_ffff, 0x123_4576]),
    (32, 0xffff_ffff, WORDS, &[0, 0xffff_ffff, 1, 0xfedc_ba8a]),
    (
        32,
        0x89ab_cdef,
        WORDS,
        &[0, 0x89ab_cdef, 0x7654_3211, 0xda5f_572a],
    ),
    (64, 0, DOUBLES, &[0, 0, 0, 0]),
    (
        64,
        1,
        DOUBLES,
        &[0, 1, 0xffff_ffff_ffff_ffff, 0xf1e_2d3c_4b5a_6978],
    ),
    (
        64,
        0xffff_ffff_ffff_ffff,
        DOUBLES,
        &[0, 0xffff_ffff_ffff_ffff, 1, 0xf0e1_d2c3_b4a5_9688],
    ),
    (
        64,
        0xfedc_ba98_7654_3210,
        DOUBLES,
        &[
            0,
            0xfedc_ba98_7654_3210,
            0x123_4567_89ab_cdf0,
            0x9aac_d004_49a0_0780,
        ],
    ),
];

/// Quotients: all ones by zero.
static QUOTIENTS: [(u8, u64, &[u64], &[u64]); 14] = [
    (1, 0, SINGLE, &[1, 0]),
    (1, 1, SINGLE, &[1, 1]),
    (8, 0, BYTES, &[0xff, 0, 0, 0]),
    (8, 1, BYTES, &[0xff, 1, 0, 0]),
    (8, 0xff, BYTES, &[0xff, 0xff, 1, 4]),
    (8, 0xa5, BYTES, &[0xff, 0xa5, 0, 2]),
    (32, 0, WORDS, &[0xffff_ffff, 0, 0, 0]),
    (32, 1, WORDS, &[0xffff_ffff, 1, 0, 0]),
    (32, 0xffff_ffff, WORDS, &[0xffff_ffff, 0xffff_ffff, 1, 0xe0]),
    (32, 0x89ab_cdef, WORDS, &[0xffff_ffff, 0x89ab_cdef, 0, 0x78]),
    (64, 0, DOUBLES, &[0xffff_ffff_ffff_ffff, 0, 0, 0]),
    (64, 1, DOUBLES, &[0xffff_ffff_ffff_ffff, 1, 0, 0]),
    (
        64,
        0xffff_ffff_ffff_ffff,
        DOUBLES,
        &[0xffff_ffff_ffff_ffff, 0xffff_ffff_ffff_ffff, 1, 0x10],
    ),
    (
        64,
        0xfedc_ba98_7654_3210,
        DOUBLES,
        &[0xffff_ffff_ffff_ffff, 0xfedc_ba98_7654_3210, 0, 0x10],
    ),
];

/// Remainders: the dividend by zero.
static REMAINDERS: [(u8, u64, &[u64], &[u64]); 14] = [
    (1, 0, SINGLE, &[0, 0]),
    (1, 1, SINGLE, &[1, 0]),
    (8, 0, BYTES, &[0, 0, 0, 0]),
    (8, 1, BYTES, &[1, 0, 1, 1]),
    (8, 0xff, BYTES, &[0xff, 0, 0, 0xf]),
    (8, 0xa5, BYTES, &[0xa5, 0, 0xa5, 0x2d]),
    (32, 0, WORDS, &[0, 0, 0, 0]),
    (32, 1, WORDS, &[1, 0, 1, 1]),
    (32, 0xffff_ffff, WORDS, &[0xffff_ffff, 0, 0, 0x123_38bf]),
    (
        32,
        0x89ab_cdef,
        WORDS,
        &[0x89ab_cdef, 0, 0x89ab_cdef, 0x123_3e9f],
    ),
    (64, 0, DOUBLES, &[0, 0, 0, 0]),
    (64, 1, DOUBLES, &[1, 0, 1, 1]),
    (
        64,
        0xffff_ffff_ffff_ffff,
        DOUBLES,
        &[0xffff_ffff_ffff_ffff, 0, 0, 0xe1d_2c3b_4a59_687f],
    ),
    (
        64,
        0xfedc_ba98_7654_3210,
        DOUBLES,
        &[
            0xfedc_ba98_7654_3210,
            0,
            0xfedc_ba98_7654_3210,
            0xcf9_e6d3_c0ad_9a90,
        ],
    ),
];

#[test]
fn sums(rt: HostRuntime) -> Result<(), Fail> {
    compare(&rt, rt.alloc(), BinOp::Add, &SUMS)
}

#[test]
fn differences(rt: HostRuntime) -> Result<(), Fail> {
    compare(&rt, rt.alloc(), BinOp::Sub, &DIFFERENCES)
}

#[test]
fn products(rt: HostRuntime) -> Result<(), Fail> {
    compare(&rt, rt.alloc(), BinOp::Mul, &PRODUCTS)
}

#[test]
fn quotients(rt: HostRuntime) -> Result<(), Fail> {
    compare(&rt, rt.alloc(), BinOp::Udiv, &QUOTIENTS)
}

#[test]
fn remainders(rt: HostRuntime) -> Result<(), Fail> {
    compare(&rt, rt.alloc(), BinOp::Urem, &REMAINDERS)
}
