//! Shifts, a choice for each digit of the amount.
ghost use Rattle.std.specs.Prelude.{◌≡◌, ◌<◌, ◌≤◌, ◌-◌, ◌^◌, false, length, IfOk, OnErr, if◌then◌else◌};
ghost use Rattle.bv_terms.specs.BitVectors.{bits};
ghost use Rattle.clause_store.specs.Formula.{Grows, IsKnown};
ghost use Rattle.clause_store.specs.Literals.{literal_value};
ghost use Rattle.bit_clauses.specs.Circuit.{IsCircuit, Decides, DecidesAll};
ghost use Rattle.bit_clauses.specs.Shift.{moved_list, shifted_value, signed_value};
ghost use Rattle.bit_clauses.specs.Spelled.{spelled};

use crate::bit_list::BitList;
use crate::flip::{flipped, repeated};
use crate::select::select;
use crate::way::Way;
use clause_store::lit::Lit;
use clause_store::store::ClauseStore;
use odr_list::memory::Memory;
use std::alloc::Global;

// How far a digit of the amount moves: by its value, or by the whole width where that is less.
fn distance(i: usize, width: usize) -> usize
    requires { width ≤ 64 }
    ensures within { result ≤ width }
    ensures near { 2 ^ i ≤ width → result ≡ 2 ^ i }
    ensures far { width ≤ 2 ^ i → result ≡ width }
{
    match i {
        0 => width.min(1),
        1 => width.min(2),
        2 => width.min(4),
        3 => width.min(8),
        4 => width.min(16),
        5 => width.min(32),
        _ => width,
    }
}

// Literals moved by some places.
fn moved(alloc: Global, way: Way, by: usize, lits: &[Lit], fill: Lit) -> Result<BitList, Memory>
    requires { by ≤ length lits.now }
    ensures { IfOk result (λ bits. bits ≡ moved_list way by lits.now fill) }
{
    let blank = repeated(alloc, fill, by)?;
    match way {
        Way::Down => {
            let mut bits = BitList::of(alloc, &lits[by..])?;
            bits.append(blank.as_slice())?;
            Ok(bits)
        }
        Way::Up => {
            let mut bits = blank;
            bits.append(&lits[..lits.len() - by])?;
            Ok(bits)
        }
    }
}

/// A number shifted by the number that `amount` spells; zeros come in, by a literal that is false.
pub fn shift(
    alloc: Global,
    clauses: &mut ClauseStore<'_>,
    way: Way,
    lits: &[Lit],
    amount: &[Lit],
    no: Lit,
) -> Result<BitList, Memory>
    requires narrow { length lits.now ≤ 64 }
    requires lits_known { IsKnown clauses.old.vars lits.now }
    requires amount_known { IsKnown clauses.old.vars amount.now }
    requires no_known { no.var < clauses.old.vars }
    ensures width { IfOk result (λ bits. length bits ≡ length lits.now) }
    ensures known { IfOk result (λ bits. IsKnown clauses.new.vars bits) }
    ensures circuit { IfOk result (λ bits. IsCircuit clauses.old clauses.new
        (λ v. DecidesAll v lits.now × DecidesAll v amount.now × Decides v no) (λ v. DecidesAll v bits)
        (λ w. literal_value w no ≡ false
        → spelled w bits ≡ shifted_value way (length lits.now) (spelled w lits.now) (spelled w amount.now))) }
    ensures err { OnErr result (Grows clauses.old clauses.new) }
{
    let mut current = BitList::of(alloc, lits)?;
    for i in 0..amount.len() {
        let by = distance(i, lits.len());
        let further = moved(alloc, way, by, current.as_slice(), no)?;
        current = select(
            alloc,
            clauses,
            amount[i],
            further.as_slice(),
            current.as_slice(),
        )?;
    }
    Ok(current)
}

/// A number in two's complement shifted down by the number that `amount` spells: copies of its highest bit come in.
/// `no` is a literal that is false.
pub fn shift_signed(
    alloc: Global,
    clauses: &mut ClauseStore<'_>,
    lits: &[Lit],
    amount: &[Lit],
    no: Lit,
) -> Result<BitList, Memory>
    requires some_bit { 0 < length lits.now }
    requires narrow { length lits.now ≤ 64 }
    requires lits_known { IsKnown clauses.old.vars lits.now }
    requires amount_known { IsKnown clauses.old.vars amount.now }
    requires no_known { no.var < clauses.old.vars }
    ensures width { IfOk result (λ bits. length bits ≡ length lits.now) }
    ensures known { IfOk result (λ bits. IsKnown clauses.new.vars bits) }
    ensures circuit { IfOk result (λ out. IsCircuit clauses.old clauses.new
        (λ v. DecidesAll v lits.now × DecidesAll v amount.now × Decides v no) (λ v. DecidesAll v out)
        (λ w. literal_value w no ≡ false
        → spelled w out ≡ signed_value (bits (length lits.now) (spelled w lits.now)) (spelled w amount.now))) }
    ensures err { OnErr result (Grows clauses.old clauses.new) }
{
    let sign = lits[lits.len() - 1];
    let turned = magnitude(alloc, clauses, sign, lits)?;
    let shifted = shift(alloc, clauses, Way::Down, turned.as_slice(), amount, no)?;
    let out = magnitude(alloc, clauses, sign, shifted.as_slice())?;
    Ok(out)
}

// A number whose bits are turned round where `sign` is true.
fn magnitude(
    alloc: Global,
    clauses: &mut ClauseStore<'_>,
    sign: Lit,
    lits: &[Lit],
) -> Result<BitList, Memory>
    requires sign_known { sign.var < clauses.old.vars }
    requires lits_known { IsKnown clauses.old.vars lits.now }
    ensures width { IfOk result (λ out. length out ≡ length lits.now) }
    ensures known { IfOk result (λ out. IsKnown clauses.new.vars out) }
    ensures circuit { IfOk result (λ out. IsCircuit clauses.old clauses.new (λ v. Decides v sign × DecidesAll v lits.now) (λ v. DecidesAll v out)
        (λ w. spelled w out ≡ (if literal_value w sign then 2 ^ length lits.now - 1 - spelled w lits.now else spelled w lits.now))) }
    ensures err { OnErr result (Grows clauses.old clauses.new) }
{
    let opposites = flipped(alloc, lits)?;
    let out = select(alloc, clauses, sign, opposites.as_slice(), lits)?;
    Ok(out)
}
