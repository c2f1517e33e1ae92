//! Gates bit by bit.
ghost use Rattle.std.specs.Prelude.{◌≡◌, ◌<◌, length, IfOk, OnErr};
ghost use Rattle.clause_store.specs.Formula.{Grows, IsKnown};
ghost use Rattle.clause_store.specs.Literals.{literal_value};
ghost use Rattle.bit_clauses.specs.Circuit.{IsCircuit, Decides, DecidesAll};
ghost use Rattle.bit_clauses.specs.Spelled.{spelled};
ghost use Rattle.bit_clauses.specs.Bitwise.{gate_of, bitwise_value};

use crate::bit_list::BitList;
use crate::gate::Gate;
use bit_gates::gates::{and, or, xor};
use clause_store::lit::Lit;
use clause_store::store::ClauseStore;
use odr_list::memory::Memory;
use std::alloc::Global;

// One gate.
fn one(clauses: &mut ClauseStore<'_>, gate: Gate, a: Lit, b: Lit) -> Result<Lit, Memory>
    requires a_known { a.var < clauses.old.vars }
    requires b_known { b.var < clauses.old.vars }
    ensures known { IfOk result (λ out. out.var < clauses.new.vars) }
    ensures circuit { IfOk result (λ out. IsCircuit clauses.old clauses.new (λ v. Decides v a × Decides v b) (λ v. Decides v out)
        (λ w. literal_value w out ≡ gate_of gate (literal_value w a) (literal_value w b))) }
    ensures err { OnErr result (Grows clauses.old clauses.new) }
{
    match gate {
        Gate::And => and(clauses, a, b),
        Gate::Or => or(clauses, a, b),
        Gate::Xor => xor(clauses, a, b),
    }
}

/// A gate at each place of two numbers.
pub fn bitwise(
    alloc: Global,
    clauses: &mut ClauseStore<'_>,
    gate: Gate,
    left: &[Lit],
    right: &[Lit],
) -> Result<BitList, Memory>
    requires same_width { length left.now ≡ length right.now }
    requires left_known { IsKnown clauses.old.vars left.now }
    requires right_known { IsKnown clauses.old.vars right.now }
    ensures width { IfOk result (λ bits. length bits ≡ length left.now) }
    ensures known { IfOk result (λ bits. IsKnown clauses.new.vars bits) }
    ensures circuit { IfOk result (λ bits. IsCircuit clauses.old clauses.new
        (λ v. DecidesAll v left.now × DecidesAll v right.now) (λ v. DecidesAll v bits)
        (λ w. spelled w bits ≡ bitwise_value gate (spelled w left.now) (spelled w right.now))) }
    ensures err { OnErr result (Grows clauses.old clauses.new) }
{
    let mut bits = BitList::new(alloc);
    for i in 0..left.len() {
        let bit = one(clauses, gate, left[i], right[i])?;
        bits.push(bit)?;
    }
    Ok(bits)
}
