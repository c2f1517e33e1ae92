//! Parts of terms: bits that are cut out of a term, found as deep in it as they can be, and put together again.
ghost use Rattle.std.specs.Prelude.{◌≡◌, ◌<◌, ◌+◌, true, length, IfSome};
ghost use Rattle.bv_terms.specs.Fitting.{IsFitting};
ghost use Rattle.bv_terms.specs.Shapes.{Bin, Extract};
ghost use Rattle.bv_terms.specs.Values.{width_at};
ghost use Rattle.bv_terms.specs.declared.node.BinOp.TheVariants as op;
ghost use Rattle.bv_rewrite.specs.Forms.{HasWidth, Holds, IsFormOf, StandsIn, part_shape};

use crate::form::Form;
use bv_terms::node::{BinOp, Node, TermId};
use bv_terms::pool::TermPool;

/// The bits of a term from `low` up to `high`, both included.
#[derive(Clone, Copy, Debug, PartialEq, Eq)]
pub struct Part {
    pub of: TermId,
    pub high: u8,
    pub low: u8,
}

// The part that a term is, where it is one.
fn part_at(pool: &TermPool<'_>, term: TermId) -> Option<Part>
    requires { term.number < length pool.now }
    ensures { IfSome result (λ part. Holds pool.now term.number (part_shape part)) }
{
    match pool.node(term) {
        Node::Extract { of, high, low } => Some(Part { of, high, low }),
        _ => None,
    }
}

// The same bits in the half of two joined terms that has them all; `below` is the width of the right half.
fn in_half(pool: &TermPool<'_>, part: Part, left: TermId, right: TermId, below: u8) -> Option<Part>
    requires fitting { IsFitting (width_at pool.now) (length pool.now) (part_shape part) }
    requires joined { Holds pool.now part.of.number (Bin op.Concat left.number right.number) }
    requires below { HasWidth pool.now right.number below }
    ensures deeper { IfSome result (λ inner. inner.of.number < part.of.number) }
    ensures stands { IfSome result (λ inner. StandsIn pool.now (part_shape part) (part_shape inner)) }
{
    let _pool = pool;
    if part.high < below {
        return Some(Part { of: right, ..part });
    }
    if part.low < below {
        return None;
    }
    Some(Part {
        of: left,
        high: part.high - below,
        low: part.low - below,
    })
}

// The same bits one node deeper, where the term is made of others that have them all.
fn deeper(pool: &TermPool<'_>, part: Part) -> Option<Part>
    requires { IsFitting (width_at pool.now) (length pool.now) (part_shape part) }
    ensures deeper { IfSome result (λ inner. inner.of.number < part.of.number) }
    ensures stands { IfSome result (λ inner. StandsIn pool.now (part_shape part) (part_shape inner)) }
{
    match pool.node(part.of) {
        Node::Extract { of, low, .. } => Some(Part {
            of,
            high: low + part.high,
            low: low + part.low,
        }),
        Node::Bin {
            op: BinOp::Concat,
            left,
            right,
        } => in_half(pool, part, left, right, pool.width(right)),
        _ => None,
    }
}

// The same bits as deep as they are found.
fn deepest(pool: &TermPool<'_>, part: Part) -> Part
    requires { IsFitting (width_at pool.now) (length pool.now) (part_shape part) }
    ensures { StandsIn pool.now (part_shape part) (part_shape result) }
{
    let mut found = part;
    while let Some(inner) = deeper(pool, found) {
        found = inner;
    }
    found
}

/// The plainest form of the bits of a term from `low` up to `high`.
pub fn part_of<'a>(pool: &TermPool<'a>, of: TermId, high: u8, low: u8) -> Form<'a>
    requires { IsFitting (width_at pool.now) (length pool.now) (Extract of.number high low) }
    ensures { IsFormOf pool.now (Extract of.number high low) result }
{
    let part = deepest(pool, Part { of, high, low });
    let whole = pool.width(part.of);
    if part.low == 0 && is_next(part.high, whole) {
        return Form::Known(part.of);
    }
    Form::New(Node::Extract {
        of: part.of,
        high: part.high,
        low: part.low,
    })
}

// Whether one place is the next after another.
fn is_next(place: u8, next: u8) -> bool
    ensures { result ≡ true → next ≡ place + 1 }
{
    next > place && next - place == 1
}

// The part that two terms are together, where they are neighbouring parts of one term.
fn together(pool: &TermPool<'_>, left: TermId, right: TermId) -> Option<Part>
    requires { IsFitting (width_at pool.now) (length pool.now) (Bin op.Concat left.number right.number) }
    ensures { IfSome result (λ part. StandsIn pool.now (Bin op.Concat left.number right.number) (part_shape part)) }
{
    let upper = part_at(pool, left)?;
    let lower = part_at(pool, right)?;
    if upper.of.number == lower.of.number && is_next(lower.high, upper.low) {
        Some(Part {
            low: lower.low,
            ..upper
        })
    } else {
        None
    }
}

/// The plainest form of two terms side by side.
pub fn joined<'a>(pool: &TermPool<'a>, left: TermId, right: TermId) -> Form<'a>
    requires { IsFitting (width_at pool.now) (length pool.now) (Bin op.Concat left.number right.number) }
    ensures { IsFormOf pool.now (Bin op.Concat left.number right.number) result }
{
    match together(pool, left, right) {
        Some(part) => part_of(pool, part.of, part.high, part.low),
        None => Form::New(Node::Bin {
            op: BinOp::Concat,
            left,
            right,
        }),
    }
}
