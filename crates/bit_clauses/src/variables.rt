//! The variables that have literals.
ghost use Rattle.std.specs.Prelude.{◌≡◌, ◌+◌, ◌≤◌, IfOk, OnOk, OnErr};
ghost use Rattle.clause_store.specs.Formula.{AllKnown, Grows};
ghost use Rattle.bit_clauses.specs.Bits.{run};

use crate::bit_list::BitList;
use clause_store::lit::Lit;
use clause_store::store::ClauseStore;
use odr_list::memory::Memory;
use std::alloc::Global;

/// A variable of terms, and the variable of clauses that is its lowest bit; the others follow one after another.
#[derive(Clone, Copy, Debug)]
pub struct Variable {
    pub width: u8,
    pub number: u32,
    pub first: u64,
}

/// So many new variables of clauses, one after another, by the first of them.
pub fn fresh_run(clauses: &mut ClauseStore<'_>, count: u8) -> Result<u64, Memory>
    ensures first { IfOk result (λ first. first ≡ clauses.old.vars) }
    ensures ok { OnOk result (clauses.new ≡ record clauses.old { vars = clauses.old.vars + count }) }
    ensures err { OnErr result (Grows clauses.old clauses.new) }
    ensures known { AllKnown clauses.old }
{
    let first = clauses.vars();
    for i in 0..count {
        clauses.fresh()?;
    }
    Ok(first)
}

/// Literals of so many variables one after another.
pub fn run_bits(
    alloc: Global,
    clauses: &ClauseStore<'_>,
    first: u64,
    count: u8,
) -> Result<BitList, Memory>
    requires { first + count ≤ clauses.now.vars }
    ensures { IfOk result (λ bits. bits ≡ run first count) }
{
    let _vars = clauses.vars();
    let mut bits = BitList::new(alloc);
    for i in 0..count {
        bits.push(Lit {
            var: first + i as u64,
            positive: true,
        })?;
    }
    Ok(bits)
}
