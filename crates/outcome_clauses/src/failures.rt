//! The conditions under which a store-conditional fails.
ghost use Rattle.std.specs.Prelude.{◌≡◌, IfOk, OnErr};
ghost use Rattle.clause_store.specs.Formula.{Grows};
ghost use Rattle.outcome_clauses.specs.Contract.{KnowsEnder, KnowsConditional};
ghost use Rattle.outcome_clauses.specs.Failures.{negated, IsEnding, AreFailures};

use crate::store_conditional::{Ender, StoreConditional};
use clause_store::store::ClauseStore;
use odr_list::list::List;
use odr_list::memory::Memory;
use order_clauses::order_lit::OrderLit;
use source_clauses::both::both;
use std::alloc::Global;

// The condition that holds exactly where another one doesn't.
fn negated(condition: OrderLit) -> OrderLit
    ensures { result ≡ negated condition }
{
    match condition {
        OrderLit::Always => OrderLit::Never,
        OrderLit::Never => OrderLit::Always,
        OrderLit::Is(lit) => OrderLit::Is(lit.opposite()),
    }
}

// Whether a write ends the reservation. The order comes first: of a write that isn't between the two the unit rule needs
// no hit.
fn ending(clauses: &mut ClauseStore<'_>, ender: Ender) -> Result<OrderLit, Memory>
    requires known { KnowsEnder clauses.old.vars ender }
    ensures ending { IfOk result (IsEnding clauses.old clauses.new ender) }
    ensures err { OnErr result (Grows clauses.old clauses.new) }
{
    let between = both(clauses, ender.after, ender.before)?;
    both(clauses, between, ender.hit)
}

/// The conditions under which a store-conditional fails: its address is another one, or one of the writes ends the
/// reservation.
pub fn failures_of(
    alloc: Global,
    clauses: &mut ClauseStore<'_>,
    sc: &StoreConditional,
) -> Result<List<OrderLit>, Memory>
    requires known { KnowsConditional clauses.old.vars sc.now }
    ensures failures { IfOk result (AreFailures clauses.old clauses.new sc.now.same sc.now.enders) }
    ensures err { OnErr result (Grows clauses.old clauses.new) }
{
    let mut failures = List::new(alloc);
    failures.push(negated(sc.same))?;
    for ender in sc.enders.as_slice() {
        let failure = ending(clauses, *ender)?;
        failures.push(failure)?;
    }
    Ok(failures)
}
