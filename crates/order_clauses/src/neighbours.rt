//! The clauses of recorded neighbours.
ghost use Rattle.std.specs.Prelude.{◌≡◌, ℕ, ◌<◌, ◌↔◌, true, false, IsTrue, OnOk, OnErr};
ghost use Rattle.clause_store.specs.Formula.{Grows};
ghost use Rattle.order_clauses.specs.Clauses.{Adds, Below, PairClause, AreNeighbours, NeighbourClause, NeighbourClauses};
ghost use Rattle.order_clauses.specs.Grid.{KnowsTable, IsSquare, recorded_in, lit_in};

use crate::additions::add_pair;
use crate::table::Table;
use clause_store::store::ClauseStore;
use odr_list::memory::Memory;

// Whether no place stands between two others by what is recorded.
fn none_between(table: &Table, a: usize, b: usize) -> bool
    requires square { IsSquare table.now }
    requires a_in { a < table.now.count }
    requires b_in { b < table.now.count }
    ensures none { result ≡ true → (m : ℕ) → m < table.now.count → recorded_in table.now a m ≡ true → recorded_in table.now m b ≡ true → ⊥ }
    ensures some { result ≡ false → (m : ℕ) × (m < table.now.count) × (recorded_in table.now a m ≡ true) × (recorded_in table.now m b ≡ true) }
{
    for m in 0..table.count {
        if table.is_recorded(a, m) && table.is_recorded(m, b) {
            return false;
        }
    }
    true
}

// Whether one place is recorded to stand before another, and none between them.
fn are_neighbours(table: &Table, a: usize, b: usize) -> bool
    requires square { IsSquare table.now }
    requires a_in { a < table.now.count }
    requires b_in { b < table.now.count }
    ensures { IsTrue result ↔ AreNeighbours table.now.count (recorded_in table.now) a b }
{
    table.is_recorded(a, b) && none_between(table, a, b)
}

// Each other place stands before the second of two neighbours or after the first.
fn add_neighbour(
    table: &Table,
    clauses: &mut ClauseStore<'_>,
    a: usize,
    b: usize,
) -> Result<(), Memory>
    requires square { IsSquare table.now }
    requires known { KnowsTable clauses.old.vars table.now }
    requires a_in { a < table.now.count }
    requires b_in { b < table.now.count }
    ensures ok { OnOk result (Adds clauses.old clauses.new (Below table.now.count (λ x. PairClause (lit_in table.now x b) (lit_in table.now a x)))) }
    ensures err { OnErr result (Grows clauses.old clauses.new) }
{
    for x in 0..table.count {
        add_pair(clauses, table.lit(x, b), table.lit(a, x))?;
    }
    Ok(())
}

// The same where the two places are neighbours, nothing where they aren't.
fn add_if_neighbours(
    table: &Table,
    clauses: &mut ClauseStore<'_>,
    a: usize,
    b: usize,
) -> Result<(), Memory>
    requires square { IsSquare table.now }
    requires known { KnowsTable clauses.old.vars table.now }
    requires a_in { a < table.now.count }
    requires b_in { b < table.now.count }
    ensures ok { OnOk result (Adds clauses.old clauses.new (NeighbourClause table.now.count (recorded_in table.now) (lit_in table.now) a b)) }
    ensures err { OnErr result (Grows clauses.old clauses.new) }
{
    if are_neighbours(table, a, b) {
        add_neighbour(table, clauses, a, b)?;
    }
    Ok(())
}

// The clauses of one place and its neighbours.
fn add_neighbours_of(table: &Table, clauses: &mut ClauseStore<'_>, a: usize) -> Result<(), Memory>
    requires square { IsSquare table.now }
    requires known { KnowsTable clauses.old.vars table.now }
    requires a_in { a < table.now.count }
    ensures ok { OnOk result (Adds clauses.old clauses.new (Below table.now.count (λ b. NeighbourClause table.now.count (recorded_in table.now) (lit_in table.now) a b))) }
    ensures err { OnErr result (Grows clauses.old clauses.new) }
{
    for b in 0..table.count {
        add_if_neighbours(table, clauses, a, b)?;
    }
    Ok(())
}

/// The clauses of all recorded neighbours.
pub fn add_neighbours(table: &Table, clauses: &mut ClauseStore<'_>) -> Result<(), Memory>
    requires square { IsSquare table.now }
    requires known { KnowsTable clauses.old.vars table.now }
    ensures ok { OnOk result (Adds clauses.old clauses.new (NeighbourClauses table.now.count (recorded_in table.now) (lit_in table.now))) }
    ensures err { OnErr result (Grows clauses.old clauses.new) }
{
    for a in 0..table.count {
        add_neighbours_of(table, clauses, a)?;
    }
    Ok(())
}
