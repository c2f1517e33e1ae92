//! The operations on two terms.
ghost use Rattle.std.specs.Prelude.{◌≡◌, ◌<◌, ◌≤◌, ◌++◌, length, IfOk, OnErr};
ghost use Rattle.bv_terms.specs.declared.node.BinOp.TheVariants as op;
ghost use Rattle.bv_terms.specs.Fitting.{AreOperands};
ghost use Rattle.clause_store.specs.Formula.{Grows, IsKnown};
ghost use Rattle.bit_clauses.specs.Operation.{SpellsOperation};

use crate::adder::add;
use crate::bit_list::BitList;
use crate::bitwise::bitwise;
use crate::division::divide;
use crate::flip::repeated;
use crate::gate::Gate;
use crate::product::product;
use crate::shift::{shift, shift_signed};
use crate::subtract::{equal, less, signed_less, subtract};
use crate::way::Way;
use bv_terms::node::BinOp;
use clause_store::lit::Lit;
use clause_store::store::ClauseStore;
use odr_list::memory::Memory;
use std::alloc::Global;

/// The literals of an operation on two terms, by a literal that is true.
pub fn operation(
    alloc: Global,
    clauses: &mut ClauseStore<'_>,
    op: BinOp,
    left: &[Lit],
    right: &[Lit],
    yes: Lit,
) -> Result<BitList, Memory>
    requires operands { AreOperands op (length left.now) (length right.now) }
    requires some_bit { 0 < length left.now }
    requires narrow { length left.now ≤ 64 }
    requires left_known { IsKnown clauses.old.vars left.now }
    requires right_known { IsKnown clauses.old.vars right.now }
    requires yes_known { yes.var < clauses.old.vars }
    ensures spells { IfOk result (λ out. SpellsOperation clauses.old clauses.new op left.now right.now yes out) }
    ensures err { OnErr result (Grows clauses.old clauses.new) }
{
    let no = yes.opposite();
    match op {
        BinOp::And => bitwise(alloc, clauses, Gate::And, left, right),
        BinOp::Or => bitwise(alloc, clauses, Gate::Or, left, right),
        BinOp::Xor => bitwise(alloc, clauses, Gate::Xor, left, right),
        BinOp::Add => sum(alloc, clauses, left, right, yes),
        BinOp::Sub => difference(alloc, clauses, left, right, yes),
        BinOp::Mul => product(alloc, clauses, left, right, no),
        BinOp::Udiv => quotient(alloc, clauses, left, right, yes),
        BinOp::Urem => remainder(alloc, clauses, left, right, yes),
        BinOp::Shl => shift(alloc, clauses, Way::Up, left, right, no),
        BinOp::Lshr => shift(alloc, clauses, Way::Down, left, right, no),
        BinOp::Ashr => shift_signed(alloc, clauses, left, right, no),
        BinOp::Eq => is_equal(alloc, clauses, left, right, yes),
        BinOp::Ult => is_less(alloc, clauses, left, right, yes),
        BinOp::Slt => is_signed_less(alloc, clauses, left, right, yes),
        BinOp::Concat => joined(alloc, left, right),
    }
}

// A sum without its carry.
fn sum(
    alloc: Global,
    clauses: &mut ClauseStore<'_>,
    left: &[Lit],
    right: &[Lit],
    yes: Lit,
) -> Result<BitList, Memory>
    requires same_width { length left.now ≡ length right.now }
    requires left_known { IsKnown clauses.old.vars left.now }
    requires right_known { IsKnown clauses.old.vars right.now }
    requires yes_known { yes.var < clauses.old.vars }
    ensures spells { IfOk result (λ out. SpellsOperation clauses.old clauses.new op.Add left.now right.now yes out) }
    ensures err { OnErr result (Grows clauses.old clauses.new) }
{
    let no = yes.opposite();
    let sum = add(alloc, clauses, left, right, no)?;
    Ok(sum.bits)
}

// A difference without its carry.
fn difference(
    alloc: Global,
    clauses: &mut ClauseStore<'_>,
    left: &[Lit],
    right: &[Lit],
    yes: Lit,
) -> Result<BitList, Memory>
    requires same_width { length left.now ≡ length right.now }
    requires left_known { IsKnown clauses.old.vars left.now }
    requires right_known { IsKnown clauses.old.vars right.now }
    requires yes_known { yes.var < clauses.old.vars }
    ensures spells { IfOk result (λ out. SpellsOperation clauses.old clauses.new op.Sub left.now right.now yes out) }
    ensures err { OnErr result (Grows clauses.old clauses.new) }
{
    let difference = subtract(alloc, clauses, left, right, yes)?;
    Ok(difference.bits)
}

// A quotient.
fn quotient(
    alloc: Global,
    clauses: &mut ClauseStore<'_>,
    left: &[Lit],
    right: &[Lit],
    yes: Lit,
) -> Result<BitList, Memory>
    requires same_width { length left.now ≡ length right.now }
    requires left_known { IsKnown clauses.old.vars left.now }
    requires right_known { IsKnown clauses.old.vars right.now }
    requires yes_known { yes.var < clauses.old.vars }
    ensures spells { IfOk result (λ out. SpellsOperation clauses.old clauses.new op.Udiv left.now right.now yes out) }
    ensures err { OnErr result (Grows clauses.old clauses.new) }
{
    let division = divide(alloc, clauses, left, right, yes)?;
    Ok(division.quotient)
}

// A remainder.
fn remainder(
    alloc: Global,
    clauses: &mut ClauseStore<'_>,
    left: &[Lit],
    right: &[Lit],
    yes: Lit,
) -> Result<BitList, Memory>
    requires same_width { length left.now ≡ length right.now }
    requires left_known { IsKnown clauses.old.vars left.now }
    requires right_known { IsKnown clauses.old.vars right.now }
    requires yes_known { yes.var < clauses.old.vars }
    ensures spells { IfOk result (λ out. SpellsOperation clauses.old clauses.new op.Urem left.now right.now yes out) }
    ensures err { OnErr result (Grows clauses.old clauses.new) }
{
    let division = divide(alloc, clauses, left, right, yes)?;
    Ok(division.remainder)
}

// Equality as a term of one bit.
fn is_equal(
    alloc: Global,
    clauses: &mut ClauseStore<'_>,
    left: &[Lit],
    right: &[Lit],
    yes: Lit,
) -> Result<BitList, Memory>
    requires same_width { length left.now ≡ length right.now }
    requires left_known { IsKnown clauses.old.vars left.now }
    requires right_known { IsKnown clauses.old.vars right.now }
    requires yes_known { yes.var < clauses.old.vars }
    ensures spells { IfOk result (λ out. SpellsOperation clauses.old clauses.new op.Eq left.now right.now yes out) }
    ensures err { OnErr result (Grows clauses.old clauses.new) }
{
    let test = equal(clauses, left, right, yes)?;
    let bits = repeated(alloc, test, 1)?;
    Ok(bits)
}

// Order as a term of one bit.
fn is_less(
    alloc: Global,
    clauses: &mut ClauseStore<'_>,
    left: &[Lit],
    right: &[Lit],
    yes: Lit,
) -> Result<BitList, Memory>
    requires same_width { length left.now ≡ length right.now }
    requires left_known { IsKnown clauses.old.vars left.now }
    requires right_known { IsKnown clauses.old.vars right.now }
    requires yes_known { yes.var < clauses.old.vars }
    ensures spells { IfOk result (λ out. SpellsOperation clauses.old clauses.new op.Ult left.now right.now yes out) }
    ensures err { OnErr result (Grows clauses.old clauses.new) }
{
    let test = less(alloc, clauses, left, right, yes)?;
    let bits = repeated(alloc, test, 1)?;
    Ok(bits)
}

// Order in two's complement as a term of one bit.
fn is_signed_less(
    alloc: Global,
    clauses: &mut ClauseStore<'_>,
    left: &[Lit],
    right: &[Lit],
    yes: Lit,
) -> Result<BitList, Memory>
    requires some_bit { 0 < length left.now }
    requires same_width { length left.now ≡ length right.now }
    requires left_known { IsKnown clauses.old.vars left.now }
    requires right_known { IsKnown clauses.old.vars right.now }
    requires yes_known { yes.var < clauses.old.vars }
    ensures spells { IfOk result (λ out. SpellsOperation clauses.old clauses.new op.Slt left.now right.now yes out) }
    ensures err { OnErr result (Grows clauses.old clauses.new) }
{
    let test = signed_less(alloc, clauses, left, right, yes)?;
    let bits = repeated(alloc, test, 1)?;
    Ok(bits)
}

// The left above the right; no gate is needed.
fn joined(alloc: Global, left: &[Lit], right: &[Lit]) -> Result<BitList, Memory>
    ensures { IfOk result (λ bits. bits ≡ right.now ++ left.now) }
{
    let mut bits = BitList::of(alloc, right)?;
    bits.append(left)?;
    Ok(bits)
}
