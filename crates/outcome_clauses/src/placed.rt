//! A store-conditional whose order is that of places in a table.
ghost use Rattle.std.specs.Prelude.{OnOk, OnErr};
ghost use Rattle.clause_store.specs.Formula.{Grows};
ghost use Rattle.outcome_clauses.specs.Contract.{AddsOutcome};
ghost use Rattle.outcome_clauses.specs.Placed.{conditional_in, KnowsPlaced};

use crate::outcomes::add_outcome;
use crate::store_conditional::{Ender, StoreConditional};
use clause_store::lit::Lit;
use clause_store::store::ClauseStore;
use odr_list::list::List;
use odr_list::memory::Memory;
use order_clauses::order_lit::OrderLit;
use order_clauses::table::Table;
use std::alloc::Global;

/// A write of another thread that may end the reservation, by its place.
#[derive(Clone, Copy, Debug)]
pub struct PlacedEnder {
    /// Its place in the table of the order.
    pub at: usize,
    /// Whether it takes place and touches the reserved word.
    pub hit: OrderLit,
}

/// A store-conditional that looks back to a load-reserved, by their places.
#[derive(Debug, Drop)]
pub struct PlacedConditional {
    /// The place of the load-reserved in the table of the order.
    pub link: usize,
    /// Its own place.
    pub at: usize,
    /// Whether its address is that of the load-reserved.
    pub same: OrderLit,
    /// The writes of other threads that may end the reservation.
    pub enders: List<PlacedEnder>,
    /// The literal that is true where it succeeds.
    pub outcome: Lit,
}

impl PlacedConditional {
    ghost use Rattle.std.specs.Prelude.{◌≡◌, ◌<◌, IfOk};
    ghost use Rattle.outcome_clauses.specs.Placed.{ender_in, conditional_in, IsWithin};

    // A write by what the table says of its place.
    fn ender(&self, table: &Table, ender: PlacedEnder) -> Ender
        requires within { IsWithin table.now self.now }
        requires place { ender.at < table.now.count }
        ensures { result ≡ ender_in table.now self.now ender }
    {
        Ender {
            after: table.lit(self.link, ender.at),
            before: table.lit(ender.at, self.at),
            hit: ender.hit,
        }
    }

    /// The store-conditional by what the table says of the places.
    pub fn conditional(&self, alloc: Global, table: &Table) -> Result<StoreConditional, Memory>
        requires within { IsWithin table.now self.now }
        ensures { IfOk result (λ sc. sc ≡ conditional_in table.now self.now) }
    {
        let mut enders = List::new(alloc);
        for ender in self.enders.as_slice() {
            enders.push(self.ender(table, *ender))?;
        }
        Ok(StoreConditional {
            same: self.same,
            enders,
            outcome: self.outcome,
        })
    }
}

/// The clauses of a store-conditional whose load-reserved and writes have places in the table.
///
/// # Errors
///
/// `Memory` alone, which leaves older variables and clauses.
pub fn add_placed_outcome(
    alloc: Global,
    table: &Table,
    clauses: &mut ClauseStore<'_>,
    placed: &PlacedConditional,
) -> Result<(), Memory>
    requires known { KnowsPlaced clauses.old.vars table.now placed.now }
    ensures ok { OnOk result (AddsOutcome clauses.old clauses.new (conditional_in table.now placed.now)) }
    ensures err { OnErr result (Grows clauses.old clauses.new) }
{
    let sc = placed.conditional(alloc, table)?;
    add_outcome(alloc, clauses, &sc)
}
