//! Quotients and remainders by long division, the highest digit first.
ghost use Rattle.std.specs.Prelude.{◌≡◌, ◌<◌, ◌+◌, ◌-◌, ◌*◌, ◌%◌, ◌^◌, true, length, nat_le, IfOk, OnErr, if◌then◌else◌};
ghost use Rattle.bv_terms.specs.BitVectors.{bits, udiv_value, urem_value};
ghost use Rattle.clause_store.specs.Formula.{Grows, IsKnown};
ghost use Rattle.clause_store.specs.Literals.{literal_value};
ghost use Rattle.bit_clauses.specs.Circuit.{IsCircuit, Decides, DecidesAll};
ghost use Rattle.bit_clauses.specs.Division.{IsDigit};
ghost use Rattle.bit_clauses.specs.Spelled.{bit, spelled};

use crate::bit_list::BitList;
use crate::flip::repeated;
use crate::select::select;
use crate::subtract::subtract;
use clause_store::lit::Lit;
use clause_store::store::ClauseStore;
use odr_list::memory::Memory;
use std::alloc::Global;

/// A quotient and the remainder.
#[derive(Drop)]
pub struct Division {
    pub quotient: BitList,
    pub remainder: BitList,
}

/// One digit of a quotient, and what remains.
#[derive(Drop)]
struct Digit {
    quotient: Lit,
    rest: BitList,
}

// The next digit of a quotient: whether the divisor goes into what was brought down, from which it is then taken.
// One bit more than the divisor has keeps twice the rest whole.
fn next_digit(
    alloc: Global,
    clauses: &mut ClauseStore<'_>,
    digit: Lit,
    rest: &[Lit],
    divisor: &[Lit],
    yes: Lit,
) -> Result<Digit, Memory>
    requires same_width { length rest.now ≡ length divisor.now }
    requires digit_known { digit.var < clauses.old.vars }
    requires rest_known { IsKnown clauses.old.vars rest.now }
    requires divisor_known { IsKnown clauses.old.vars divisor.now }
    requires yes_known { yes.var < clauses.old.vars }
    ensures width { IfOk result (λ r. length r.rest ≡ length divisor.now) }
    ensures quotient_known { IfOk result (λ r. r.quotient.var < clauses.new.vars) }
    ensures rest_known { IfOk result (λ r. IsKnown clauses.new.vars r.rest) }
    ensures circuit { IfOk result (λ r. IsCircuit clauses.old clauses.new
        (λ v. Decides v digit × DecidesAll v rest.now × DecidesAll v divisor.now × Decides v yes) (λ v. Decides v r.quotient × DecidesAll v r.rest)
        (λ w. literal_value w yes ≡ true
        → IsDigit (bit w digit + 2 * spelled w rest.now) (spelled w divisor.now) (2 ^ length divisor.now) (literal_value w r.quotient) (spelled w r.rest))) }
    ensures err { OnErr result (Grows clauses.old clauses.new) }
{
    let mut taken = BitList::of(alloc, rest)?;
    taken.push_lowest(digit)?;
    let mut wide = BitList::of(alloc, divisor)?;
    wide.push(yes.opposite())?;
    let difference = subtract(alloc, clauses, taken.as_slice(), wide.as_slice(), yes)?;
    let left = select(
        alloc,
        clauses,
        difference.carry,
        difference.bits.as_slice(),
        taken.as_slice(),
    )?;
    let rest = left.lower(alloc, divisor.len())?;
    Ok(Digit {
        quotient: difference.carry,
        rest,
    })
}

/// The quotient and the remainder of two numbers of the same width, as SMT-LIB has them for a zero divisor too, by a
/// literal that is true.
pub fn divide(
    alloc: Global,
    clauses: &mut ClauseStore<'_>,
    left: &[Lit],
    right: &[Lit],
    yes: Lit,
) -> Result<Division, Memory>
    requires same_width { length left.now ≡ length right.now }
    requires left_known { IsKnown clauses.old.vars left.now }
    requires right_known { IsKnown clauses.old.vars right.now }
    requires yes_known { yes.var < clauses.old.vars }
    ensures quotient_width { IfOk result (λ r. length r.quotient ≡ length left.now) }
    ensures remainder_width { IfOk result (λ r. length r.remainder ≡ length left.now) }
    ensures quotient_known { IfOk result (λ r. IsKnown clauses.new.vars r.quotient) }
    ensures remainder_known { IfOk result (λ r. IsKnown clauses.new.vars r.remainder) }
    ensures circuit { IfOk result (λ r. IsCircuit clauses.old clauses.new
        (λ v. DecidesAll v left.now × DecidesAll v right.now × Decides v yes) (λ v. DecidesAll v r.quotient × DecidesAll v r.remainder)
        (λ w. literal_value w yes ≡ true
        → (spelled w r.quotient ≡ udiv_value (bits (length left.now) (spelled w left.now)) (bits (length left.now) (spelled w right.now)))
        × (spelled w r.remainder ≡ urem_value (bits (length left.now) (spelled w left.now)) (bits (length left.now) (spelled w right.now))))) }
    ensures err { OnErr result (Grows clauses.old clauses.new) }
{
    let mut quotient = BitList::new(alloc);
    let mut rest = repeated(alloc, yes.opposite(), right.len())?;
    for i in 0..left.len() {
        let digit = left[left.len() - 1 - i];
        let next = next_digit(alloc, clauses, digit, rest.as_slice(), right, yes)?;
        quotient.push_lowest(next.quotient)?;
        rest = next.rest;
    }
    Ok(Division {
        quotient,
        remainder: rest,
    })
}
