//! Rules that hold of every operation they name. Each is a closure's body, as in
//! `Rule::new(Box::new(alloc, |view| neutral_right(view))?)`.
ghost use Rattle.std.specs.Prelude.{◌≡◌, ◌⊎◌, ◌-◌, ◌^◌, Some, true, IfSome};
ghost use Rattle.bv_rewrite.specs.Neutral.{IsNeutralLeft, IsNeutralRight};
ghost use Rattle.bv_rewrite.specs.Right.{IsRight};

use crate::view::{Swap, View};
use bv_terms::node::BinOp;

// All bits of a width set; none for a width above 64.
fn all_ones(width: u8) -> Option<u64>
    ensures { IfSome result (λ number. number ≡ 2 ^ width - 1) }
{
    if width > 64 {
        return None;
    }
    Some((2u128.pow(width as u32) - 1) as u64)
}

// The number that changes nothing on the right of an operation.
fn neutral_on_the_right(op: BinOp, width: u8) -> Option<u64>
    ensures { IfSome result (IsNeutralRight op width) }
{
    match op {
        BinOp::Add => Some(0),
        BinOp::Sub => Some(0),
        BinOp::Or => Some(0),
        BinOp::Xor => Some(0),
        BinOp::Shl => Some(0),
        BinOp::Lshr => Some(0),
        BinOp::Ashr => Some(0),
        BinOp::Mul => Some(1),
        BinOp::Udiv => Some(1),
        BinOp::And => all_ones(width),
        _ => None,
    }
}

// The number that changes nothing on the left of an operation.
fn neutral_on_the_left(op: BinOp, width: u8) -> Option<u64>
    ensures { IfSome result (IsNeutralLeft op width) }
{
    match op {
        BinOp::Add => Some(0),
        BinOp::Or => Some(0),
        BinOp::Xor => Some(0),
        BinOp::Mul => Some(1),
        BinOp::And => all_ones(width),
        _ => None,
    }
}

/// A sum, a difference, an `Or`, an `Xor` or a shift with 0 on the right, a product or a quotient with 1 there, and an
/// `And` with all ones there are the left child. Takes no memory.
pub fn neutral_right(view: View) -> Option<Swap>
    ensures { IfSome result (IsRight view) }
{
    let neutral = neutral_on_the_right(view.op, view.width)?;
    let right = view.right?;
    if right == neutral {
        Some(Swap::Left)
    } else {
        None
    }
}

/// A sum, an `Or` or an `Xor` with 0 on the left, a product with 1 there, and an `And` with all ones there are the right
/// child. Takes no memory.
pub fn neutral_left(view: View) -> Option<Swap>
    ensures { IfSome result (IsRight view) }
{
    let neutral = neutral_on_the_left(view.op, view.width)?;
    let left = view.left?;
    if left == neutral {
        Some(Swap::Right)
    } else {
        None
    }
}

// Whether one child is the constant 0.
fn has_zero(view: View) -> bool
    ensures { result ≡ true → (view.left ≡ Some 0) ⊎ (view.right ≡ Some 0) }
{
    match view.left {
        Some(0) => true,
        _ => match view.right {
            Some(0) => true,
            _ => false,
        },
    }
}

/// An `And` or a product with 0 on either side is 0. Takes no memory.
pub fn zero(view: View) -> Option<Swap>
    ensures { IfSome result (IsRight view) }
{
    if !has_zero(view) {
        return None;
    }
    match view.op {
        BinOp::And => Some(Swap::Value(0)),
        BinOp::Mul => Some(Swap::Value(0)),
        _ => None,
    }
}

/// Of one term twice, an `And` and an `Or` are that term, a difference, an `Xor` and both orders are 0, and `Eq` is 1.
/// Takes no memory.
pub fn same(view: View) -> Option<Swap>
    ensures { IfSome result (IsRight view) }
{
    if !view.same {
        return None;
    }
    match view.op {
        BinOp::And => Some(Swap::Left),
        BinOp::Or => Some(Swap::Left),
        BinOp::Sub => Some(Swap::Value(0)),
        BinOp::Xor => Some(Swap::Value(0)),
        BinOp::Ult => Some(Swap::Value(0)),
        BinOp::Slt => Some(Swap::Value(0)),
        BinOp::Eq => Some(Swap::Value(1)),
        _ => None,
    }
}
