//! The choice of one of two numbers.
ghost use Rattle.std.specs.Prelude.{◌≡◌, ◌<◌, length, IfOk, OnErr, if◌then◌else◌};
ghost use Rattle.clause_store.specs.Formula.{Grows, IsKnown};
ghost use Rattle.clause_store.specs.Literals.{literal_value};
ghost use Rattle.bit_clauses.specs.Circuit.{IsCircuit, Decides, DecidesAll};
ghost use Rattle.bit_clauses.specs.Spelled.{spelled};

use crate::bit_list::BitList;
use bit_gates::gates::mux;
use clause_store::lit::Lit;
use clause_store::store::ClauseStore;
use odr_list::memory::Memory;
use std::alloc::Global;

/// The first number where `when` is true, else the second.
pub fn select(
    alloc: Global,
    clauses: &mut ClauseStore<'_>,
    when: Lit,
    first: &[Lit],
    second: &[Lit],
) -> Result<BitList, Memory>
    requires same_width { length first.now ≡ length second.now }
    requires when_known { when.var < clauses.old.vars }
    requires first_known { IsKnown clauses.old.vars first.now }
    requires second_known { IsKnown clauses.old.vars second.now }
    ensures width { IfOk result (λ bits. length bits ≡ length first.now) }
    ensures known { IfOk result (λ bits. IsKnown clauses.new.vars bits) }
    ensures circuit { IfOk result (λ bits. IsCircuit clauses.old clauses.new
        (λ v. Decides v when × DecidesAll v first.now × DecidesAll v second.now) (λ v. DecidesAll v bits)
        (λ w. spelled w bits ≡ (if literal_value w when then spelled w first.now else spelled w second.now))) }
    ensures err { OnErr result (Grows clauses.old clauses.new) }
{
    let mut bits = BitList::new(alloc);
    for i in 0..first.len() {
        let bit = mux(clauses, when, first[i], second[i])?;
        bits.push(bit)?;
    }
    Ok(bits)
}
