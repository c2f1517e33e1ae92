//! One node over terms, by a book of rules.
ghost use Rattle.std.specs.Prelude.{◌≡◌, ◌^◌, ◌<◌, ◌≤◌, ℕ, [], IfOk, length};
ghost use Rattle.bv_terms.specs.Fitting.{AreOperands, IsFitting, IsWidth};
ghost use Rattle.bv_terms.specs.Shapes.{Bin, Extract, Ite, Neg, Not, SignExtend, ZeroExtend};
ghost use Rattle.bv_terms.specs.Values.{Assignment, width_at};
ghost use Rattle.bv_terms.specs.Variables.{IsTermOf};
ghost use Rattle.step_terms.specs.Made.{Grows, IsMade};

use bv_rewrite::add_by::add_by;
use bv_rewrite::rewrite::Rewrite;
use bv_terms::node::{BinOp, Node, TermId};
use bv_terms::pool::TermPool;
use odr_list::memory::Memory;

/// A constant of 1 to 64 bits.
pub fn constant(pool: &mut TermPool<'_>, width: u8, value: u64) -> Result<TermId, Memory>
    requires width { IsWidth width }
    requires below { value < 2 ^ width }
    ensures made { IfOk result (λ id. IsMade pool.old pool.new [] width (λ _. value) id.number) }
    ensures grows { Grows pool.old pool.new }
{
    pool.add(Node::Const { width, value })
}

/// A constant word.
pub fn word(pool: &mut TermPool<'_>, number: u32) -> Result<TermId, Memory>
    ensures made { IfOk result (λ id. IsMade pool.old pool.new [] 32 (λ _. number) id.number) }
    ensures grows { Grows pool.old pool.new }
{
    constant(pool, 32, u64::from(number))
}

/// An operation on two terms.
pub fn operation<R: Rewrite>(
    pool: &mut TermPool<'_>,
    book: &R,
    op: BinOp,
    left: TermId,
    right: TermId,
) -> Result<TermId, Memory>
    requires left { left.number < length pool.old }
    requires right { right.number < length pool.old }
    requires operands { AreOperands op (width_at pool.old left.number) (width_at pool.old right.number) }
    ensures term { IfOk result (λ id. IsTermOf pool.old pool.new (Bin op left.number right.number) id.number) }
    ensures grows { Grows pool.old pool.new }
{
    add_by(pool, Node::Bin { op, left, right }, book)
}

/// Each bit turned round.
pub fn inverse(pool: &mut TermPool<'_>, of: TermId) -> Result<TermId, Memory>
    requires { of.number < length pool.old }
    ensures term { IfOk result (λ id. IsTermOf pool.old pool.new (Not of.number) id.number) }
    ensures grows { Grows pool.old pool.new }
{
    pool.add(Node::Not(of))
}

/// The negative, in two's complement.
pub fn negative(pool: &mut TermPool<'_>, of: TermId) -> Result<TermId, Memory>
    requires { of.number < length pool.old }
    ensures term { IfOk result (λ id. IsTermOf pool.old pool.new (Neg of.number) id.number) }
    ensures grows { Grows pool.old pool.new }
{
    pool.add(Node::Neg(of))
}

/// The bits from `low` up to `high`, both included.
pub fn part(pool: &mut TermPool<'_>, of: TermId, high: u8, low: u8) -> Result<TermId, Memory>
    requires inside { of.number < length pool.old }
    requires order { low ≤ high }
    requires within { high < width_at pool.old of.number }
    ensures term { IfOk result (λ id. IsTermOf pool.old pool.new (Extract of.number high low) id.number) }
    ensures grows { Grows pool.old pool.new }
{
    pool.add(Node::Extract { of, high, low })
}

/// The term with zeros in front, up to a width.
pub fn zero_extended(pool: &mut TermPool<'_>, of: TermId, width: u8) -> Result<TermId, Memory>
    requires inside { of.number < length pool.old }
    requires wider { width_at pool.old of.number ≤ width }
    requires within { width ≤ 64 }
    ensures term { IfOk result (λ id. IsTermOf pool.old pool.new (ZeroExtend of.number width) id.number) }
    ensures grows { Grows pool.old pool.new }
{
    pool.add(Node::ZeroExtend { of, width })
}

/// The term with copies of its highest bit in front, up to a width.
pub fn sign_extended(pool: &mut TermPool<'_>, of: TermId, width: u8) -> Result<TermId, Memory>
    requires inside { of.number < length pool.old }
    requires wider { width_at pool.old of.number ≤ width }
    requires within { width ≤ 64 }
    ensures term { IfOk result (λ id. IsTermOf pool.old pool.new (SignExtend of.number width) id.number) }
    ensures grows { Grows pool.old pool.new }
{
    pool.add(Node::SignExtend { of, width })
}

/// One of two terms of one width, as a term of one bit chooses.
pub fn choice(
    pool: &mut TermPool<'_>,
    when: TermId,
    yes: TermId,
    no: TermId,
) -> Result<TermId, Memory>
    requires when_inside { when.number < length pool.old }
    requires yes_inside { yes.number < length pool.old }
    requires no_inside { no.number < length pool.old }
    requires bit { width_at pool.old when.number ≡ 1 }
    requires one_width { width_at pool.old yes.number ≡ width_at pool.old no.number }
    ensures term { IfOk result (λ id. IsTermOf pool.old pool.new (Ite when.number yes.number no.number) id.number) }
    ensures grows { Grows pool.old pool.new }
{
    pool.add(Node::Ite { when, yes, no })
}
