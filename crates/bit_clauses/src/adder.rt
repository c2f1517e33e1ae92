//! Sums.
ghost use Rattle.std.specs.Prelude.{◌≡◌, ◌<◌, ◌+◌, ◌*◌, ◌^◌, length, IfOk, OnErr};
ghost use Rattle.clause_store.specs.Formula.{Grows, IsKnown};
ghost use Rattle.bit_clauses.specs.Spelled.{bit, spelled};
ghost use Rattle.bit_clauses.specs.Circuit.{IsCircuit, Decides, DecidesAll};

use crate::bit_list::BitList;
use bit_gates::gates::{mux, xor};
use clause_store::lit::Lit;
use clause_store::store::ClauseStore;
use odr_list::memory::Memory;
use std::alloc::Global;

/// A bit of a sum, and what is carried to the next.
#[derive(Clone, Copy, Drop)]
pub struct Column {
    pub sum: Lit,
    pub carry: Lit,
}

/// The sum of three bits.
pub fn full_adder(clauses: &mut ClauseStore<'_>, a: Lit, b: Lit, c: Lit) -> Result<Column, Memory>
    requires a_known { a.var < clauses.old.vars }
    requires b_known { b.var < clauses.old.vars }
    requires c_known { c.var < clauses.old.vars }
    ensures sum_known { IfOk result (λ r. r.sum.var < clauses.new.vars) }
    ensures carry_known { IfOk result (λ r. r.carry.var < clauses.new.vars) }
    ensures circuit { IfOk result (λ r. IsCircuit clauses.old clauses.new
        (λ v. Decides v a × Decides v b × Decides v c) (λ v. Decides v r.sum × Decides v r.carry)
        (λ w. bit w r.sum + 2 * bit w r.carry ≡ bit w a + bit w b + bit w c)) }
    ensures err { OnErr result (Grows clauses.old clauses.new) }
{
    let half = xor(clauses, a, b)?;
    let sum = xor(clauses, half, c)?;
    let carry = mux(clauses, half, c, a)?;
    Ok(Column { sum, carry })
}

/// A sum, and what is carried out of it.
#[derive(Drop)]
pub struct Sum {
    pub bits: BitList,
    pub carry: Lit,
}

/// The sum of two numbers of the same width and of one bit more.
pub fn add(
    alloc: Global,
    clauses: &mut ClauseStore<'_>,
    left: &[Lit],
    right: &[Lit],
    first: Lit,
) -> Result<Sum, Memory>
    requires same_width { length left.now ≡ length right.now }
    requires left_known { IsKnown clauses.old.vars left.now }
    requires right_known { IsKnown clauses.old.vars right.now }
    requires first_known { first.var < clauses.old.vars }
    ensures width { IfOk result (λ r. length r.bits ≡ length left.now) }
    ensures bits_known { IfOk result (λ r. IsKnown clauses.new.vars r.bits) }
    ensures carry_known { IfOk result (λ r. r.carry.var < clauses.new.vars) }
    ensures circuit { IfOk result (λ r. IsCircuit clauses.old clauses.new
        (λ v. DecidesAll v left.now × DecidesAll v right.now × Decides v first) (λ v. DecidesAll v r.bits × Decides v r.carry)
        (λ w. spelled w r.bits + 2 ^ length left.now * bit w r.carry ≡ spelled w left.now + spelled w right.now + bit w first)) }
    ensures err { OnErr result (Grows clauses.old clauses.new) }
{
    let mut bits = BitList::new(alloc);
    let mut carry = first;
    for i in 0..left.len() {
        let column = full_adder(clauses, left[i], right[i], carry)?;
        bits.push(column.sum)?;
        carry = column.carry;
    }
    Ok(Sum { bits, carry })
}
