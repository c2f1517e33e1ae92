//! Operations on two variables.
ghost use Rattle.std.specs.Prelude.{◌<◌, length, IfOk};
ghost use Rattle.bv_terms.specs.Values.{KeepsTerms};

use crate::circuit::{Given, Operands, value_from, variable};
use bumpalo::Bump;
use bv_terms::node::{BinOp, Node, TermId};
use bv_terms::pool::TermPool;
use std::alloc::Global;
use std::process::Abort;
use std::test::Fail;

/// An operation on two terms of one width.
fn operation_on(
    rt: &impl Abort,
    pool: &mut TermPool<'_>,
    op: BinOp,
    left: TermId,
    right: TermId,
) -> Result<TermId, Fail>
    requires left_within { left.number < length pool.old }
    requires right_within { right.number < length pool.old }
    ensures within { IfOk result (λ id. id.number < length pool.new) }
    ensures older { KeepsTerms pool.old pool.new }
{
    let wide = pool.width(left);
    let other = pool.width(right);
    match op {
        BinOp::Concat => {
            assert!(rt; wide + other <= 64);
            Ok(pool.add(Node::Bin {
                op: BinOp::Concat,
                left,
                right,
            })?)
        }
        _ => {
            assert!(rt; wide == other);
            Ok(pool.add(Node::Bin { op, left, right })?)
        }
    }
}

/// The value of an operation on operands of one width, from unit clauses for the operands.
fn value_of(
    rt: &impl Abort,
    alloc: Global,
    op: BinOp,
    width: u8,
    left: u64,
    right: u64,
) -> Result<Option<u64>, Fail> {
    let arena = Bump::new(alloc);
    let mut pool = TermPool::new(alloc, &arena);
    let first = variable(rt, &mut pool, width, 0)?;
    let second = variable(rt, &mut pool, width, 1)?;
    let root = operation_on(rt, &mut pool, op, first, second)?;
    let second = Given {
        term: second,
        value: right,
    };
    let given = Operands {
        first: Given {
            term: first,
            value: left,
        },
        second,
        third: second,
    };
    value_from(rt, alloc, &pool, &arena, given, root)
}

/// Compares an operation's values with those of a table: the width of the operands, the left one, right ones, and the
/// value with each of these.
pub fn compare(
    rt: &impl Abort,
    alloc: Global,
    op: BinOp,
    table: &[(u8, u64, &[u64], &[u64])],
) -> Result<(), Fail> {
    for (width, left, rights, wants) in table {
        assert_eq!(rt; rights.len(), wants.len());
        for (right, want) in rights.iter().zip(wants.iter()) {
            let value = value_of(rt, alloc, op, *width, *left, *right)?;
            assert_eq!(rt; value, Some(*want), "{op:?}, {width} bits, {left}, {right}");
        }
    }
    Ok(())
}
