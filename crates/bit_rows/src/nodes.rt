//! Constants, operations on one variable, choices, and entries of tables.
ghost use Rattle.std.specs.Prelude.{◌<◌, ◌≡◌, length, IfOk};
ghost use Rattle.bv_terms.specs.Values.{KeepsTerms};

use crate::circuit::{Given, Operands, value_from, variable};
use Form::{Neg, Not, Part, Signs, Zeros};
use bumpalo::Bump;
use bv_terms::node::{Node, TermId};
use bv_terms::pool::TermPool;
use std::alloc::Global;
use std::process::Abort;
use std::test::Fail;

/// An operation on one term.
#[derive(Clone, Copy, Debug)]
enum Form {
    Not,
    Neg,
    /// The bits from the second place up to the first.
    Part(u8, u8),
    /// With zeros in front, up to a width.
    Zeros(u8),
    /// With copies of the highest bit in front, up to a width.
    Signs(u8),
}

/// Operands of one bit.
const SINGLE: &[u64] = &[0, 1];

/// Operands of 8 bits.
const BYTES: &[u64] = &[0, 1, 0xff, 0xa5];

/// Operands of 32 bits.
const WORDS: &[u64] = &[0, 1, 0xffff_ffff, 0x89ab_cdef];

/// Operands of 64 bits.
const DOUBLES: &[u64] = &[0, 1, 0xffff_ffff_ffff_ffff, 0xfedc_ba98_7654_3210];

/// An operation, the width of its operand, operands, and the value of each.
static UNARY: [(Form, u8, &[u64], &[u64]); 47] = [
    (Not, 1, SINGLE, &[1, 0]),
    (Not, 8, BYTES, &[0xff, 0xfe, 0, 0x5a]),
    (Not, 32, WORDS, &[0xffff_ffff, 0xffff_fffe, 0, 0x7654_3210]),
    (
        Not,
        64,
        DOUBLES,
        &[
            0xffff_ffff_ffff_ffff,
            0xffff_ffff_ffff_fffe,
            0,
            0x123_4567_89ab_cdef,
        ],
    ),
    (Neg, 1, SINGLE, &[0, 1]),
    (Neg, 8, BYTES, &[0, 0xff, 1, 0x5b]),
    (Neg, 32, WORDS, &[0, 0xffff_ffff, 1, 0x7654_3211]),
    (
        Neg,
        64,
        DOUBLES,
        &[0, 0xffff_ffff_ffff_ffff, 1, 0x123_4567_89ab_cdf0],
    ),
    (Part(0, 0), 1, SINGLE, &[0, 1]),
    (Part(0, 0), 8, BYTES, &[0, 1, 1, 1]),
    (Part(7, 7), 8, BYTES, &[0, 0, 1, 1]),
    (Part(7, 0), 8, BYTES, &[0, 1, 0xff, 0xa5]),
    (Part(3, 0), 8, BYTES, &[0, 1, 0xf, 5]),
    (Part(7, 4), 8, BYTES, &[0, 0, 0xf, 0xa]),
    (Part(5, 2), 8, BYTES, &[0, 0, 0xf, 9]),
    (Part(0, 0), 32, WORDS, &[0, 1, 1, 1]),
    (Part(31, 31), 32, WORDS, &[0, 0, 1, 1]),
    (Part(31, 0), 32, WORDS, &[0, 1, 0xffff_ffff, 0x89ab_cdef]),
    (Part(7, 0), 32, WORDS, &[0, 1, 0xff, 0xef]),
    (Part(31, 24), 32, WORDS, &[0, 0, 0xff, 0x89]),
    (Part(19, 9), 32, WORDS, &[0, 0, 0x7ff, 0x5e6]),
    (Part(0, 0), 64, DOUBLES, &[0, 1, 1, 0]),
    (Part(63, 63), 64, DOUBLES, &[0, 0, 1, 1]),
    (
        Part(63, 0),
        64,
        DOUBLES,
        &[0, 1, 0xffff_ffff_ffff_ffff, 0xfedc_ba98_7654_3210],
    ),
    (Part(31, 0), 64, DOUBLES, &[0, 1, 0xffff_ffff, 0x7654_3210]),
    (Part(63, 32), 64, DOUBLES, &[0, 0, 0xffff_ffff, 0xfedc_ba98]),
    (Part(40, 23), 64, DOUBLES, &[0, 0, 0x3_ffff, 0x1_30ec]),
    (Zeros(1), 1, SINGLE, &[0, 1]),
    (Zeros(8), 1, SINGLE, &[0, 1]),
    (Zeros(64), 1, SINGLE, &[0, 1]),
    (Zeros(8), 8, BYTES, &[0, 1, 0xff, 0xa5]),
    (Zeros(9), 8, BYTES, &[0, 1, 0xff, 0xa5]),
    (Zeros(64), 8, BYTES, &[0, 1, 0xff, 0xa5]),
    (Zeros(32), 32, WORDS, &[0, 1, 0xffff_ffff, 0x89ab_cdef]),
    (Zeros(33), 32, WORDS, &[0, 1, 0xffff_ffff, 0x89ab_cdef]),
    (Zeros(64), 32, WORDS, &[0, 1, 0xffff_ffff, 0x89ab_cdef]),
    (
        Zeros(64),
        64,
        DOUBLES,
        &[0, 1, 0xffff_ffff_ffff_ffff, 0xfedc_ba98_7654_3210],
    ),
    (Signs(1), 1, SINGLE, &[0, 1]),
    (Signs(8), 1, SINGLE, &[0, 0xff]),
    (Signs(64), 1, SINGLE, &[0, 0xffff_ffff_ffff_ffff]),
    (Signs(8), 8, BYTES, &[0, 1, 0xff, 0xa5]),
    (Signs(9), 8, BYTES, &[0, 1, 0x1ff, 0x1a5]),
    (
        Signs(64),
        8,
        BYTES,
        &[0, 1, 0xffff_ffff_ffff_ffff, 0xffff_ffff_ffff_ffa5],
    ),
    (Signs(32), 32, WORDS, &[0, 1, 0xffff_ffff, 0x89ab_cdef]),
    (Signs(33), 32, WORDS, &[0, 1, 0x1_ffff_ffff, 0x1_89ab_cdef]),
    (
        Signs(64),
        32,
        WORDS,
        &[0, 1, 0xffff_ffff_ffff_ffff, 0xffff_ffff_89ab_cdef],
    ),
    (
        Signs(64),
        64,
        DOUBLES,
        &[0, 1, 0xffff_ffff_ffff_ffff, 0xfedc_ba98_7654_3210],
    ),
];

/// The width of two operands, what chooses, the first, the second, and the chosen one.
static CHOICES: [(u8, u64, u64, u64, u64); 22] = [
    (1, 0, 1, 0, 0),
    (1, 0, 0, 1, 1),
    (1, 1, 1, 0, 1),
    (1, 1, 0, 1, 0),
    (8, 0, 0xa5, 0x3c, 0x3c),
    (8, 0, 0, 0xff, 0xff),
    (8, 0, 0xff, 1, 1),
    (8, 1, 0xa5, 0x3c, 0xa5),
    (8, 1, 0, 0xff, 0),
    (8, 1, 0xff, 1, 0xff),
    (32, 0, 0x89ab_cdef, 0x123_4576, 0x123_4576),
    (32, 0, 0, 0xffff_ffff, 0xffff_ffff),
    (32, 0, 0xffff_ffff, 1, 1),
    (32, 1, 0x89ab_cdef, 0x123_4576, 0x89ab_cdef),
    (32, 1, 0, 0xffff_ffff, 0),
    (32, 1, 0xffff_ffff, 1, 0xffff_ffff),
    (
        64,
        0,
        0xfedc_ba98_7654_3210,
        0xf1e_2d3c_4b5a_6978,
        0xf1e_2d3c_4b5a_6978,
    ),
    (64, 0, 0, 0xffff_ffff_ffff_ffff, 0xffff_ffff_ffff_ffff),
    (64, 0, 0xffff_ffff_ffff_ffff, 1, 1),
    (
        64,
        1,
        0xfedc_ba98_7654_3210,
        0xf1e_2d3c_4b5a_6978,
        0xfedc_ba98_7654_3210,
    ),
    (64, 1, 0, 0xffff_ffff_ffff_ffff, 0),
    (64, 1, 0xffff_ffff_ffff_ffff, 1, 0xffff_ffff_ffff_ffff),
];

/// The width of the index, the index of the first entry, the table, indices, and the entry at each.
static ENTRIES: [(u8, u32, &[u8], &[u64], &[u64]); 12] = [
    (1, 0, &[7, 9], &[0, 1], &[7, 9]),
    (1, 1, &[7, 9], &[0, 1], &[0, 7]),
    (1, 2, &[7], &[0, 1], &[0, 0]),
    (
        8,
        0,
        &[0x11, 0xa5, 0xff, 0x42],
        &[0, 1, 3, 4, 0xff],
        &[0x11, 0xa5, 0x42, 0, 0],
    ),
    (
        8,
        5,
        &[0x11, 0xa5, 0xff, 0x42],
        &[0, 4, 5, 6, 7, 8, 9, 0xff],
        &[0, 0, 0x11, 0xa5, 0xff, 0x42, 0, 0],
    ),
    (
        8,
        0xfe,
        &[0x11, 0xa5, 0xff, 0x42],
        &[0, 1, 0xfd, 0xfe, 0xff],
        &[0, 0, 0, 0x11, 0xa5],
    ),
    (
        8,
        0x100,
        &[0x11, 0xa5, 0xff, 0x42],
        &[0, 1, 0xff],
        &[0, 0, 0],
    ),
    (8, 0, &[], &[0, 0xff], &[0, 0]),
    (
        32,
        0x1_0000,
        &[0x11, 0xa5, 0xff, 0x42],
        &[
            0,
            0xffff,
            0x1_0000,
            0x1_0001,
            0x1_0003,
            0x1_0004,
            0xffff_ffff,
        ],
        &[0, 0, 0x11, 0xa5, 0x42, 0, 0],
    ),
    (
        32,
        0xffff_fffe,
        &[0x11, 0xa5, 0xff, 0x42],
        &[0, 1, 0xffff_fffd, 0xffff_fffe, 0xffff_ffff],
        &[0, 0, 0, 0x11, 0xa5],
    ),
    (
        64,
        0,
        &[0x11, 0xa5, 0xff, 0x42],
        &[0, 3, 4, 0x1_0000_0000, 0xffff_ffff_ffff_ffff],
        &[0x11, 0x42, 0, 0, 0],
    ),
    (
        64,
        0xffff_fffe,
        &[0x11, 0xa5, 0xff, 0x42],
        &[
            0,
            0xffff_fffd,
            0xffff_fffe,
            0xffff_ffff,
            0x1_0000_0000,
            0x1_0000_0001,
            0x1_0000_0002,
            0xffff_ffff_ffff_ffff,
        ],
        &[0, 0, 0x11, 0xa5, 0xff, 0x42, 0, 0],
    ),
];

/// One term in each place.
fn alike(term: TermId, value: u64) -> Operands
    ensures first { result.first.term ≡ term }
    ensures second { result.second.term ≡ term }
    ensures third { result.third.term ≡ term }
{
    let given = Given { term, value };
    Operands {
        first: given,
        second: given,
        third: given,
    }
}

/// An operation on a term.
fn operation_on(
    rt: &impl Abort,
    pool: &mut TermPool<'_>,
    form: Form,
    of: TermId,
) -> Result<TermId, Fail>
    requires { of.number < length pool.old }
    ensures within { IfOk result (λ id. id.number < length pool.new) }
    ensures older { KeepsTerms pool.old pool.new }
{
    let whole = pool.width(of);
    let root = match form {
        Not => pool.add(Node::Not(of))?,
        Neg => pool.add(Node::Neg(of))?,
        Part(high, low) => {
            assert!(rt; low <= high);
            assert!(rt; high < whole);
            pool.add(Node::Extract { of, high, low })?
        }
        Zeros(width) => {
            assert!(rt; whole <= width);
            assert!(rt; width <= 64);
            pool.add(Node::ZeroExtend { of, width })?
        }
        Signs(width) => {
            assert!(rt; whole <= width);
            assert!(rt; width <= 64);
            pool.add(Node::SignExtend { of, width })?
        }
    };
    Ok(root)
}

/// The value of an operation on a variable.
fn value_of(
    rt: &impl Abort,
    alloc: Global,
    form: Form,
    width: u8,
    value: u64,
) -> Result<Option<u64>, Fail> {
    let arena = Bump::new(alloc);
    let mut pool = TermPool::new(alloc, &arena);
    let term = variable(rt, &mut pool, width, 0)?;
    let root = operation_on(rt, &mut pool, form, term)?;
    value_from(rt, alloc, &pool, &arena, alike(term, value), root)
}

#[test]
fn operations_on_one_term(rt: HostRuntime) -> Result<(), Fail> {
    for (form, width, values, wants) in &UNARY {
        assert_eq!(rt; values.len(), wants.len());
        for (value, want) in values.iter().zip(wants.iter()) {
            let found = value_of(&rt, rt.alloc(), *form, *width, *value)?;
            assert_eq!(rt; found, Some(*want), "{form:?}, {width} bits, {value}");
        }
    }
    Ok(())
}

/// The value of a choice between two variables by a third.
fn choice_of(
    rt: &impl Abort,
    alloc: Global,
    width: u8,
    test: u64,
    first: u64,
    second: u64,
) -> Result<Option<u64>, Fail> {
    let arena = Bump::new(alloc);
    let mut pool = TermPool::new(alloc, &arena);
    let when = variable(rt, &mut pool, 1, 0)?;
    let yes = variable(rt, &mut pool, width, 1)?;
    let no = variable(rt, &mut pool, width, 2)?;
    assert!(rt; pool.width(when) == 1);
    assert!(rt; pool.width(yes) == pool.width(no));
    let root = pool.add(Node::Ite { when, yes, no })?;
    let given = Operands {
        first: Given {
            term: when,
            value: test,
        },
        second: Given {
            term: yes,
            value: first,
        },
        third: Given {
            term: no,
            value: second,
        },
    };
    value_from(rt, alloc, &pool, &arena, given, root)
}

#[test]
fn choices_between_two_terms(rt: HostRuntime) -> Result<(), Fail> {
    for (width, test, first, second, want) in &CHOICES {
        let found = choice_of(&rt, rt.alloc(), *width, *test, *first, *second)?;
        assert_eq!(rt;
            found,
            Some(*want),
            "{width} bits, {test}, {first}, {second}"
        );
    }
    Ok(())
}

/// The entry of a table at a variable.
fn entry_at(
    rt: &impl Abort,
    alloc: Global,
    width: u8,
    first: u32,
    table: &[u8],
    value: u64,
) -> Result<Option<u64>, Fail> {
    let arena = Bump::new(alloc);
    let mut pool = TermPool::new(alloc, &arena);
    let bytes = pool.table(table)?;
    let index = variable(rt, &mut pool, width, 0)?;
    let root = pool.add(Node::ByteSelect {
        first,
        bytes,
        index,
    })?;
    value_from(rt, alloc, &pool, &arena, alike(index, value), root)
}

#[test]
fn entries_of_tables(rt: HostRuntime) -> Result<(), Fail> {
    for (width, first, table, indices, wants) in &ENTRIES {
        assert_eq!(rt; indices.len(), wants.len());
        for (index, want) in indices.iter().zip(wants.iter()) {
            let found = entry_at(&rt, rt.alloc(), *width, *first, table, *index)?;
            assert_eq!(rt;
                found,
                Some(*want),
                "{width} bits, from {first}, at {index}"
            );
        }
    }
    Ok(())
}

/// A constant's term.
fn constant(rt: &impl Abort, pool: &mut TermPool<'_>, width: u8, value: u64) -> Result<TermId, Fail>
    ensures within { IfOk result (λ id. id.number < length pool.new) }
    ensures older { KeepsTerms pool.old pool.new }
{
    let root = match width {
        1 => {
            assert!(rt; value < 2);
            pool.add(Node::Const { width: 1, value })?
        }
        8 => {
            assert!(rt; value < 0x100);
            pool.add(Node::Const { width: 8, value })?
        }
        32 => {
            assert!(rt; value < 0x1_0000_0000);
            pool.add(Node::Const { width: 32, value })?
        }
        _ => pool.add(Node::Const { width: 64, value })?,
    };
    Ok(root)
}

#[test]
fn constants(rt: HostRuntime) -> Result<(), Fail> {
    for (width, values) in [(1, SINGLE), (8, BYTES), (32, WORDS), (64, DOUBLES)] {
        for value in values {
            let arena = Bump::new(rt.alloc());
            let mut pool = TermPool::new(rt.alloc(), &arena);
            let other = variable(&rt, &mut pool, 1, 0)?;
            let root = constant(&rt, &mut pool, width, *value)?;
            let found = value_from(&rt, rt.alloc(), &pool, &arena, alike(other, 0), root)?;
            assert_eq!(rt; found, Some(*value), "{width} bits");
        }
    }
    Ok(())
}
