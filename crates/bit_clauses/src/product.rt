//! Products.
ghost use Rattle.std.specs.Prelude.{◌≡◌, ◌<◌, ◌≤◌, ◌+◌, ◌*◌, ◌%◌, ◌^◌, false, length, IfOk, OnErr};
ghost use Rattle.clause_store.specs.Formula.{Grows, IsKnown};
ghost use Rattle.clause_store.specs.Literals.{literal_value};
ghost use Rattle.bit_clauses.specs.Circuit.{IsCircuit, Decides, DecidesAll};
ghost use Rattle.bit_clauses.specs.Spelled.{bit, spelled};

use crate::adder::add;
use crate::bit_list::BitList;
use crate::flip::repeated;
use crate::select::select;
use clause_store::lit::Lit;
use clause_store::store::ClauseStore;
use odr_list::memory::Memory;
use std::alloc::Global;

// The higher bits of the sum so far, with the lower bits of `left` added to them where `digit` is true.
fn row(
    alloc: Global,
    clauses: &mut ClauseStore<'_>,
    left: &[Lit],
    digit: Lit,
    high: &[Lit],
    no: Lit,
) -> Result<BitList, Memory>
    requires room { length high.now ≤ length left.now }
    requires left_known { IsKnown clauses.old.vars left.now }
    requires digit_known { digit.var < clauses.old.vars }
    requires high_known { IsKnown clauses.old.vars high.now }
    requires no_known { no.var < clauses.old.vars }
    ensures width { IfOk result (λ bits. length bits ≡ length high.now) }
    ensures known { IfOk result (λ bits. IsKnown clauses.new.vars bits) }
    ensures circuit { IfOk result (λ bits. IsCircuit clauses.old clauses.new
        (λ v. DecidesAll v left.now × Decides v digit × DecidesAll v high.now × Decides v no) (λ v. DecidesAll v bits)
        (λ w. literal_value w no ≡ false
        → spelled w bits ≡ (spelled w high.now + spelled w left.now * bit w digit) % 2 ^ length high.now)) }
    ensures err { OnErr result (Grows clauses.old clauses.new) }
{
    let sum = add(alloc, clauses, high, &left[..high.len()], no)?;
    let chosen = select(alloc, clauses, digit, sum.bits.as_slice(), high)?;
    Ok(chosen)
}

/// The product of two numbers of the same width, modulo 2 to the power of that width; `no` is a literal that is
/// false.
pub fn product(
    alloc: Global,
    clauses: &mut ClauseStore<'_>,
    left: &[Lit],
    right: &[Lit],
    no: Lit,
) -> Result<BitList, Memory>
    requires same_width { length left.now ≡ length right.now }
    requires left_known { IsKnown clauses.old.vars left.now }
    requires right_known { IsKnown clauses.old.vars right.now }
    requires no_known { no.var < clauses.old.vars }
    ensures width { IfOk result (λ bits. length bits ≡ length left.now) }
    ensures known { IfOk result (λ bits. IsKnown clauses.new.vars bits) }
    ensures circuit { IfOk result (λ bits. IsCircuit clauses.old clauses.new
        (λ v. DecidesAll v left.now × DecidesAll v right.now × Decides v no) (λ v. DecidesAll v bits)
        (λ w. literal_value w no ≡ false → spelled w bits ≡ spelled w left.now * spelled w right.now % 2 ^ length left.now)) }
    ensures err { OnErr result (Grows clauses.old clauses.new) }
{
    let mut low = BitList::new(alloc);
    let mut high = repeated(alloc, no, left.len())?;
    for digit in right {
        let sum = row(alloc, clauses, left, *digit, high.as_slice(), no)?;
        low.push(sum.bit(0))?;
        high = sum.higher(alloc)?;
    }
    Ok(low)
}
