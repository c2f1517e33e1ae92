//! The clauses of one store-conditional: its outcome is true exactly where it succeeds.
ghost use Rattle.std.specs.Prelude.{OnOk, OnErr};
ghost use Rattle.clause_store.specs.Formula.{Grows};
ghost use Rattle.outcome_clauses.specs.Contract.{KnowsConditional, AddsOutcome};

use crate::failures::failures_of;
use crate::none_of::add_none_of;
use crate::store_conditional::StoreConditional;
use clause_store::store::ClauseStore;
use odr_list::memory::Memory;
use std::alloc::Global;

/// Makes the outcome of a store-conditional true exactly where its address is that of the load-reserved and no write ends
/// the reservation, by at most two new variables for each write that may.
///
/// A write that never hits the reserved word is best left out; one that never stands between the two costs nothing.
///
/// # Errors
///
/// `Memory` alone, which leaves older variables and clauses.
pub fn add_outcome(
    alloc: Global,
    clauses: &mut ClauseStore<'_>,
    sc: &StoreConditional,
) -> Result<(), Memory>
    requires known { KnowsConditional clauses.old.vars sc.now }
    ensures ok { OnOk result (AddsOutcome clauses.old clauses.new sc.now) }
    ensures err { OnErr result (Grows clauses.old clauses.new) }
{
    let failures = failures_of(alloc, clauses, sc)?;
    add_none_of(alloc, clauses, sc.outcome, failures.as_slice())?;
    Ok(())
}
