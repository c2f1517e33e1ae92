//! The byte of a table that a term picks.
ghost use Rattle.std.specs.Prelude.{◌≡◌, ◌<◌, ◌≤◌, ◌↔◌, ◌^◌, IsTrue, length, nat_eq, IfOk, OnErr, if◌then◌else◌};
ghost use Rattle.bv_terms.specs.BitVectors.{byte_value};
ghost use Rattle.clause_store.specs.Formula.{Grows, IsKnown};
ghost use Rattle.bit_clauses.specs.Circuit.{DecidesAll};
ghost use Rattle.bit_clauses.specs.Operation.{Spells, SpellsOf};
ghost use Rattle.bit_clauses.specs.Spelled.{spelled};

use crate::bit_list::BitList;
use crate::flip::repeated;
use crate::select::select;
use crate::subtract::equal;
use crate::wiring::constant;
use clause_store::lit::Lit;
use clause_store::store::ClauseStore;
use odr_list::memory::Memory;
use std::alloc::Global;

// Whether a number has so many digits.
fn has_digits(number: u64, width: usize) -> bool
    ensures { IsTrue result ↔ (number < 2 ^ width) }
{
    if width < 64 {
        number < 1 << width
    } else {
        true
    }
}

// One entry of a table: its byte where the index is its place, else what was chosen before.
fn entry(
    alloc: Global,
    clauses: &mut ClauseStore<'_>,
    place: u64,
    byte: u8,
    index: &[Lit],
    other: &[Lit],
    yes: Lit,
) -> Result<BitList, Memory>
    requires eight { length other.now ≡ 8 }
    requires index_known { IsKnown clauses.old.vars index.now }
    requires other_known { IsKnown clauses.old.vars other.now }
    requires yes_known { yes.var < clauses.old.vars }
    ensures spells { IfOk result (λ out. Spells clauses.old clauses.new (λ v. DecidesAll v index.now × DecidesAll v other.now) yes 8
        (λ w. if nat_eq (spelled w index.now) place then byte else spelled w other.now) out) }
    ensures err { OnErr result (Grows clauses.old clauses.new) }
{
    if !has_digits(place, index.len()) {
        let out = BitList::of(alloc, other)?;
        return Ok(out);
    }
    let wanted = constant(alloc, yes, index.len(), place)?;
    let here = equal(clauses, index, wanted.as_slice(), yes)?;
    let bits = constant(alloc, yes, 8, byte as u64)?;
    let out = select(alloc, clauses, here, bits.as_slice(), other)?;
    Ok(out)
}

/// The byte of a table at an index that counts from `first`, 0 outside the table, by a literal that is true.
pub fn byte_select(
    alloc: Global,
    clauses: &mut ClauseStore<'_>,
    first: u32,
    bytes: &[u8],
    index: &[Lit],
    yes: Lit,
) -> Result<BitList, Memory>
    requires index_known { IsKnown clauses.old.vars index.now }
    requires yes_known { yes.var < clauses.old.vars }
    ensures spells { IfOk result (λ out. SpellsOf clauses.old clauses.new index.now yes 8 (λ a. byte_value first bytes.now a.value) out) }
    ensures err { OnErr result (Grows clauses.old clauses.new) }
{
    let mut chosen = repeated(alloc, yes.opposite(), 8)?;
    for i in 0..bytes.len() {
        let place = first as u64 + i as u64;
        chosen = entry(
            alloc,
            clauses,
            place,
            bytes[i],
            index,
            chosen.as_slice(),
            yes,
        )?;
    }
    Ok(chosen)
}
