//! Nodes that their form alone makes plainer: what is undone, chosen by a constant, cut out twice or put together again.
ghost use Rattle.std.specs.Prelude.{◌≡◌, ◌<◌, length, IfSome};
ghost use Rattle.bv_terms.specs.Fitting.{IsFitting};
ghost use Rattle.bv_terms.specs.Shapes.{Bin, Ite, Neg, Not, SignExtend, ZeroExtend, shape_of};
ghost use Rattle.bv_terms.specs.Values.{width_at};
ghost use Rattle.bv_terms.specs.declared.node.BinOp.TheVariants as op;
ghost use Rattle.bv_rewrite.specs.Forms.{IsFormOf};

use crate::part::{joined, part_of};
use bv_terms::node::{BinOp, Node, TermId};
use bv_terms::pool::TermPool;

/// What can stand in a node's place.
#[derive(Clone, Copy, Debug, PartialEq, Eq)]
pub enum Form<'a> {
    /// A term that is there.
    Known(TermId),
    /// A node that is to be kept.
    New(Node<'a>),
}

/// The plainest form of a node, by what its children are made of. Takes no memory.
pub fn form_of<'a>(pool: &TermPool<'a>, node: Node<'a>) -> Form<'a>
    requires { IsFitting (width_at pool.now) (length pool.now) (shape_of node) }
    ensures { IsFormOf pool.now (shape_of node.entry) result }
{
    match node {
        Node::Not(of) => inverse(pool, of),
        Node::Neg(of) => negative(pool, of),
        Node::Bin {
            op: BinOp::Concat,
            left,
            right,
        } => joined(pool, left, right),
        Node::Extract { of, high, low } => part_of(pool, of, high, low),
        Node::ZeroExtend { of, width } => with_zeros(pool, of, width),
        Node::SignExtend { of, width } => with_signs(pool, of, width),
        Node::Ite { when, yes, no } => choice(pool, when, yes, no),
        other => Form::New(other),
    }
}

// The inverse of an inverse is the term itself.
fn inverse<'a>(pool: &TermPool<'a>, of: TermId) -> Form<'a>
    requires { of.number < length pool.now }
    ensures { IsFormOf pool.now (Not of.number) result }
{
    match pool.node(of) {
        Node::Not(inner) => {
            let _width = pool.width(inner);
            Form::Known(inner)
        }
        _ => Form::New(Node::Not(of)),
    }
}

// The negative of a negative is the term itself.
fn negative<'a>(pool: &TermPool<'a>, of: TermId) -> Form<'a>
    requires { of.number < length pool.now }
    ensures { IsFormOf pool.now (Neg of.number) result }
{
    match pool.node(of) {
        Node::Neg(inner) => {
            let _width = pool.width(inner);
            Form::Known(inner)
        }
        _ => Form::New(Node::Neg(of)),
    }
}

// No zeros in front leave the term as it is.
fn with_zeros<'a>(pool: &TermPool<'a>, of: TermId, width: u8) -> Form<'a>
    requires { IsFitting (width_at pool.now) (length pool.now) (ZeroExtend of.number width) }
    ensures { IsFormOf pool.now (ZeroExtend of.number width) result }
{
    if pool.width(of) == width {
        Form::Known(of)
    } else {
        Form::New(Node::ZeroExtend { of, width })
    }
}

// No signs in front leave the term as it is.
fn with_signs<'a>(pool: &TermPool<'a>, of: TermId, width: u8) -> Form<'a>
    requires { IsFitting (width_at pool.now) (length pool.now) (SignExtend of.number width) }
    ensures { IsFormOf pool.now (SignExtend of.number width) result }
{
    if pool.width(of) == width {
        Form::Known(of)
    } else {
        Form::New(Node::SignExtend { of, width })
    }
}

// A constant chooses at once, and between one term twice there is no choice.
fn choice<'a>(pool: &TermPool<'a>, when: TermId, yes: TermId, no: TermId) -> Form<'a>
    requires { IsFitting (width_at pool.now) (length pool.now) (Ite when.number yes.number no.number) }
    ensures { IsFormOf pool.now (Ite when.number yes.number no.number) result }
{
    if yes.number == no.number {
        return Form::Known(yes);
    }
    match pool.constant(when) {
        Some(1) => Form::Known(yes),
        Some(_) => Form::Known(no),
        None => Form::New(Node::Ite { when, yes, no }),
    }
}
