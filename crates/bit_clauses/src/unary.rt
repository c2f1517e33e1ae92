//! The operations on one term, and the choice of one of two terms.
ghost use Rattle.std.specs.Prelude.{◌≡◌, ◌<◌, ◌≤◌, ◌+◌, ◌-◌, length, nat_eq, IfOk, OnErr, if◌then◌else◌};
ghost use Rattle.bv_terms.specs.BitVectors.{neg_value, not_value, extract_value, sign_extend_value};
ghost use Rattle.clause_store.specs.declared.lit.Lit.{Lit};
ghost use Rattle.clause_store.specs.Formula.{Grows, IsKnown};
ghost use Rattle.bit_clauses.specs.Circuit.{DecidesAll};
ghost use Rattle.bit_clauses.specs.Operation.{Spells, SpellsOf, SpellsWired};
ghost use Rattle.bit_clauses.specs.Spelled.{spelled};

use crate::bit_list::BitList;
use crate::flip::{flipped, repeated};
use crate::select::select;
use crate::subtract::subtract;
use crate::wiring::{extended, extracted};
use clause_store::lit::Lit;
use clause_store::store::ClauseStore;
use odr_list::memory::Memory;
use std::alloc::Global;

/// Each bit turned round.
pub fn inverse(alloc: Global, lits: &[Lit]) -> Result<BitList, Memory>
    ensures { IfOk result (λ out. (sure : Lit) → SpellsWired lits.now sure (length lits.now) not_value out) }
{
    let out = flipped(alloc, lits)?;
    Ok(out)
}

/// The negative, by a literal that is true.
pub fn negative(
    alloc: Global,
    clauses: &mut ClauseStore<'_>,
    lits: &[Lit],
    yes: Lit,
) -> Result<BitList, Memory>
    requires lits_known { IsKnown clauses.old.vars lits.now }
    requires yes_known { yes.var < clauses.old.vars }
    ensures spells { IfOk result (λ out. SpellsOf clauses.old clauses.new lits.now yes (length lits.now) neg_value out) }
    ensures err { OnErr result (Grows clauses.old clauses.new) }
{
    let no = yes.opposite();
    let zeros = repeated(alloc, no, lits.len())?;
    let difference = subtract(alloc, clauses, zeros.as_slice(), lits, yes)?;
    Ok(difference.bits)
}

/// The bits from `low` up to `high`, both included.
pub fn part(alloc: Global, lits: &[Lit], high: usize, low: usize) -> Result<BitList, Memory>
    requires ordered { low ≤ high }
    requires within { high < length lits.now }
    ensures { IfOk result (λ out. (sure : Lit) → SpellsWired lits.now sure (high + 1 - low) (λ a. extract_value a high low) out) }
{
    let out = extracted(alloc, lits, high, low)?;
    Ok(out)
}

/// The term with zeros in front, by a literal that is true.
pub fn with_zeros(alloc: Global, lits: &[Lit], width: usize, yes: Lit) -> Result<BitList, Memory>
    requires { length lits.now ≤ width }
    ensures { IfOk result (λ out. SpellsWired lits.now yes width (λ a. a.value) out) }
{
    let no = yes.opposite();
    let out = extended(alloc, lits, no, width)?;
    Ok(out)
}

/// The term with copies of its highest bit in front.
pub fn with_signs(alloc: Global, lits: &[Lit], width: usize) -> Result<BitList, Memory>
    requires some_bit { 0 < length lits.now }
    requires wider { length lits.now ≤ width }
    ensures { IfOk result (λ out. (sure : Lit) → SpellsWired lits.now sure width (λ a. sign_extend_value a width) out) }
{
    let sign = lits[lits.len() - 1];
    let out = extended(alloc, lits, sign, width)?;
    Ok(out)
}

/// The first term where the term `when` of one bit is 1, else the second.
pub fn choice(
    alloc: Global,
    clauses: &mut ClauseStore<'_>,
    when: &[Lit],
    first: &[Lit],
    second: &[Lit],
    yes: Lit,
) -> Result<BitList, Memory>
    requires one_bit { length when.now ≡ 1 }
    requires same_width { length first.now ≡ length second.now }
    requires when_known { IsKnown clauses.old.vars when.now }
    requires first_known { IsKnown clauses.old.vars first.now }
    requires second_known { IsKnown clauses.old.vars second.now }
    ensures spells { IfOk result (λ out. Spells clauses.old clauses.new (λ v. DecidesAll v when.now × DecidesAll v first.now × DecidesAll v second.now) yes (length first.now)
        (λ w. if nat_eq (spelled w when.now) 1 then spelled w first.now else spelled w second.now) out) }
    ensures err { OnErr result (Grows clauses.old clauses.new) }
{
    let test = when[0];
    let out = select(alloc, clauses, test, first, second)?;
    Ok(out)
}
