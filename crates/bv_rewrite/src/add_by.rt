//! Terms made by a book of rules.
ghost use Rattle.std.specs.Prelude.{◌≡◌, ◌<◌, length, IfOk, IfSome, OnErr};
ghost use Rattle.bv_terms.specs.Fitting.{AreOperands, IsFitting};
ghost use Rattle.bv_terms.specs.Shapes.{Bin, shape_of};
ghost use Rattle.bv_terms.specs.Shared.{GainsAtMost};
ghost use Rattle.bv_terms.specs.Values.{KeepsTerms, width_at};
ghost use Rattle.bv_terms.specs.Variables.{IsTermOf, KeepsVariables};
ghost use Rattle.bv_rewrite.specs.Swapped.{HoldsOf};

use crate::form::{Form, form_of};
use crate::rewrite::Rewrite;
use crate::view::{Swap, View};
use bv_terms::node::{BinOp, Node, TermId};
use bv_terms::pool::TermPool;
use odr_list::memory::Memory;

/// A term with the width of this node, its value under every assignment, and no variable that the node hasn't: what its
/// form alone makes it, what the book says of it, or else what the pool keeps for it. The pool gains at most one term, and none where memory is wanting.
/// The work is that of one look-up, and of one step for each node that a part of a term is looked for in.
pub fn add_by<'a, R: Rewrite>(
    pool: &mut TermPool<'a>,
    node: Node<'a>,
    book: &R,
) -> Result<TermId, Memory>
    requires { IsFitting (width_at pool.old) (length pool.old) (shape_of node) }
    ensures term { IfOk result (λ id. IsTermOf pool.old pool.new (shape_of node.entry) id.number) }
    ensures gains { IfOk result (λ id. GainsAtMost pool.old pool.new id.number) }
    ensures older { KeepsTerms pool.old pool.new }
    ensures variables { KeepsVariables pool.old pool.new }
    ensures err { OnErr result (pool.new ≡ pool.old) }
{
    match form_of(pool, node) {
        Form::Known(id) => Ok(id),
        Form::New(plain) => by_book(pool, plain, book),
    }
}

// A term of this node: what the book says of it, or else what the pool keeps for it.
fn by_book<'a, R: Rewrite>(
    pool: &mut TermPool<'a>,
    node: Node<'a>,
    book: &R,
) -> Result<TermId, Memory>
    requires { IsFitting (width_at pool.old) (length pool.old) (shape_of node) }
    ensures term { IfOk result (λ id. IsTermOf pool.old pool.new (shape_of node.entry) id.number) }
    ensures gains { IfOk result (λ id. GainsAtMost pool.old pool.new id.number) }
    ensures older { KeepsTerms pool.old pool.new }
    ensures variables { KeepsVariables pool.old pool.new }
    ensures err { OnErr result (pool.new ≡ pool.old) }
{
    match node {
        Node::Bin { op, left, right } => match asked(pool, op, left, right, book) {
            Some(swap) => replaced(pool, op, left, right, swap),
            None => pool.add(node),
        },
        _ => pool.add(node),
    }
}

// What the book says of an operation on two terms. It isn't asked about a Concat.
fn asked<R: Rewrite>(
    pool: &TermPool<'_>,
    op: BinOp,
    left: TermId,
    right: TermId,
    book: &R,
) -> Option<Swap>
    requires left_inside { left.number < length pool.now }
    requires right_inside { right.number < length pool.now }
    requires operands { AreOperands op (width_at pool.now left.number) (width_at pool.now right.number) }
    ensures { IfSome result (HoldsOf pool.now op left.number right.number) }
{
    match op {
        BinOp::Concat => None,
        _ => book.swap(View::of(pool, op, left, right)),
    }
}

// The term that the swap puts in the place of an operation.
fn replaced(
    pool: &mut TermPool<'_>,
    op: BinOp,
    left: TermId,
    right: TermId,
    swap: Swap,
) -> Result<TermId, Memory>
    requires fitting { IsFitting (width_at pool.old) (length pool.old) (Bin op left.number right.number) }
    requires holds { HoldsOf pool.old op left.number right.number swap }
    ensures term { IfOk result (λ id. IsTermOf pool.old pool.new (Bin op left.number right.number) id.number) }
    ensures gains { IfOk result (λ id. GainsAtMost pool.old pool.new id.number) }
    ensures older { KeepsTerms pool.old pool.new }
    ensures variables { KeepsVariables pool.old pool.new }
    ensures err { OnErr result (pool.new ≡ pool.old) }
{
    match swap {
        Swap::Left => Ok(left),
        Swap::Right => Ok(right),
        Swap::Value(value) => {
            let width = pool.node_width(Node::Bin { op, left, right });
            pool.add(Node::Const { width, value })
        }
    }
}
