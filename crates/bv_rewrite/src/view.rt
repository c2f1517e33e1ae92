//! What a rule is shown, and what it answers.
ghost use Rattle.std.specs.Prelude.{◌≡◌, ◌<◌, length};
ghost use Rattle.bv_terms.specs.Values.{Assignment, value_at, width_at};
ghost use Rattle.bv_rewrite.specs.Views.{Agrees, view_of};

use bv_terms::node::{BinOp, TermId};
use bv_terms::pool::TermPool;

/// An operation on two terms of one width, other than `Concat`, as far as rules see it.
#[derive(Clone, Copy, Debug, PartialEq, Eq)]
pub struct View {
    /// The node's operation.
    pub op: BinOp,
    /// The width of either child in bits.
    pub width: u8,
    /// Whether both children are one term. Two terms may still have one value.
    pub same: bool,
    /// The left child's value, where it is a constant.
    pub left: Option<u64>,
    /// The right child's value, where it is a constant.
    pub right: Option<u64>,
}

/// What may stand in a node's place.
#[derive(Clone, Copy, Debug, PartialEq, Eq)]
pub enum Swap {
    /// The left child.
    Left,
    /// The right child.
    Right,
    /// A constant of the node's width.
    Value(u64),
}

impl View {
    /// The view of an operation on two terms of one width. Takes no memory.
    pub fn of(pool: &TermPool<'_>, op: BinOp, left: TermId, right: TermId) -> View
        requires left_inside { left.number < length pool.now }
        requires right_inside { right.number < length pool.now }
        requires one_width { width_at pool.now left.number ≡ width_at pool.now right.number }
        ensures view { result ≡ view_of pool.now op left.number right.number }
        ensures agrees { (w : Assignment) → Agrees result (value_at w pool.now left.number) (value_at w pool.now right.number) }
    {
        let width = pool.width(left);
        let right_width = pool.width(right);
        prove!(width == right_width);
        View {
            op,
            width,
            same: left.number == right.number,
            left: pool.constant(left),
            right: pool.constant(right),
        }
    }
}
