//! Differences and comparisons.
ghost use Rattle.std.specs.Prelude.{◌≡◌, ◌<◌, ◌≤◌, ◌+◌, ◌-◌, ◌*◌, ◌^◌, true, length, nat_eq, nat_lt, IfOk, OnErr};
ghost use Rattle.bv_terms.specs.BitVectors.{bit_of, bits, is_signed_less};
ghost use Rattle.clause_store.specs.Formula.{Grows, IsKnown};
ghost use Rattle.clause_store.specs.Literals.{literal_value};
ghost use Rattle.bit_clauses.specs.Circuit.{IsCircuit, Decides, DecidesAll};
ghost use Rattle.bit_clauses.specs.Spelled.{bit, spelled};

use crate::adder::{Sum, add};
use crate::flip::flipped;
use bit_gates::gates::{and, mux, same, xor};
use clause_store::lit::Lit;
use clause_store::store::ClauseStore;
use odr_list::memory::Memory;
use std::alloc::Global;

/// The difference of two numbers of the same width, by a literal that is true. The carry is true exactly where
/// nothing was borrowed.
pub fn subtract(
    alloc: Global,
    clauses: &mut ClauseStore<'_>,
    left: &[Lit],
    right: &[Lit],
    yes: Lit,
) -> Result<Sum, Memory>
    requires same_width { length left.now ≡ length right.now }
    requires left_known { IsKnown clauses.old.vars left.now }
    requires right_known { IsKnown clauses.old.vars right.now }
    requires yes_known { yes.var < clauses.old.vars }
    ensures width { IfOk result (λ r. length r.bits ≡ length left.now) }
    ensures bits_known { IfOk result (λ r. IsKnown clauses.new.vars r.bits) }
    ensures carry_known { IfOk result (λ r. r.carry.var < clauses.new.vars) }
    ensures circuit { IfOk result (λ r. IsCircuit clauses.old clauses.new
        (λ v. DecidesAll v left.now × DecidesAll v right.now × Decides v yes) (λ v. DecidesAll v r.bits × Decides v r.carry)
        (λ w. literal_value w yes ≡ true → spelled w r.bits + 2 ^ length left.now * bit w r.carry + spelled w right.now ≡ spelled w left.now + 2 ^ length left.now)) }
    ensures err { OnErr result (Grows clauses.old clauses.new) }
{
    let turned = flipped(alloc, right)?;
    let sum = add(alloc, clauses, left, turned.as_slice(), yes)?;
    Ok(sum)
}

/// Whether the first number is below the second.
pub fn less(
    alloc: Global,
    clauses: &mut ClauseStore<'_>,
    left: &[Lit],
    right: &[Lit],
    yes: Lit,
) -> Result<Lit, Memory>
    requires same_width { length left.now ≡ length right.now }
    requires left_known { IsKnown clauses.old.vars left.now }
    requires right_known { IsKnown clauses.old.vars right.now }
    requires yes_known { yes.var < clauses.old.vars }
    ensures known { IfOk result (λ out. out.var < clauses.new.vars) }
    ensures circuit { IfOk result (λ out. IsCircuit clauses.old clauses.new
        (λ v. DecidesAll v left.now × DecidesAll v right.now × Decides v yes) (λ v. Decides v out)
        (λ w. literal_value w yes ≡ true → literal_value w out ≡ nat_lt (spelled w left.now) (spelled w right.now))) }
    ensures err { OnErr result (Grows clauses.old clauses.new) }
{
    let difference = subtract(alloc, clauses, left, right, yes)?;
    Ok(difference.carry.opposite())
}

/// Whether the first number is below the second in two's complement.
pub fn signed_less(
    alloc: Global,
    clauses: &mut ClauseStore<'_>,
    left: &[Lit],
    right: &[Lit],
    yes: Lit,
) -> Result<Lit, Memory>
    requires some_bit { 0 < length left.now }
    requires same_width { length left.now ≡ length right.now }
    requires left_known { IsKnown clauses.old.vars left.now }
    requires right_known { IsKnown clauses.old.vars right.now }
    requires yes_known { yes.var < clauses.old.vars }
    ensures known { IfOk result (λ out. out.var < clauses.new.vars) }
    ensures circuit { IfOk result (λ out. IsCircuit clauses.old clauses.new
        (λ v. DecidesAll v left.now × DecidesAll v right.now × Decides v yes) (λ v. Decides v out)
        (λ w. literal_value w yes ≡ true
        → literal_value w out ≡ is_signed_less (bits (length left.now) (spelled w left.now)) (bits (length left.now) (spelled w right.now)))) }
    ensures err { OnErr result (Grows clauses.old clauses.new) }
{
    let top = left.len() - 1;
    let below = less(alloc, clauses, left, right, yes)?;
    let differ = xor(clauses, left[top], right[top])?;
    let out = mux(clauses, differ, left[top], below)?;
    Ok(out)
}

/// Whether two numbers of the same width are equal.
pub fn equal(
    clauses: &mut ClauseStore<'_>,
    left: &[Lit],
    right: &[Lit],
    yes: Lit,
) -> Result<Lit, Memory>
    requires same_width { length left.now ≡ length right.now }
    requires left_known { IsKnown clauses.old.vars left.now }
    requires right_known { IsKnown clauses.old.vars right.now }
    requires yes_known { yes.var < clauses.old.vars }
    ensures known { IfOk result (λ out. out.var < clauses.new.vars) }
    ensures circuit { IfOk result (λ out. IsCircuit clauses.old clauses.new
        (λ v. DecidesAll v left.now × DecidesAll v right.now × Decides v yes) (λ v. Decides v out)
        (λ w. literal_value w yes ≡ true → literal_value w out ≡ nat_eq (spelled w left.now) (spelled w right.now))) }
    ensures err { OnErr result (Grows clauses.old clauses.new) }
{
    let mut all = yes;
    for i in 0..left.len() {
        let alike = same(clauses, left[i], right[i])?;
        all = and(clauses, all, alike)?;
    }
    Ok(all)
}
