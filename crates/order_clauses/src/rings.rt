//! The clauses of three places: they don't stand in a ring.
ghost use Rattle.std.specs.Prelude.{◌<◌, OnOk, OnErr};
ghost use Rattle.clause_store.specs.Formula.{Grows};
ghost use Rattle.order_clauses.specs.Clauses.{Adds, Below, RingClause, RingClauses};
ghost use Rattle.order_clauses.specs.Grid.{KnowsTable, IsSquare, lit_in};

use crate::additions::add_triple;
use crate::table::Table;
use clause_store::store::ClauseStore;
use odr_list::memory::Memory;

// Three places don't stand in a ring, either way round.
fn add_ring(
    table: &Table,
    clauses: &mut ClauseStore<'_>,
    i: usize,
    j: usize,
    k: usize,
) -> Result<(), Memory>
    requires square { IsSquare table.now }
    requires known { KnowsTable clauses.old.vars table.now }
    requires i_in { i < table.now.count }
    requires j_in { j < table.now.count }
    requires k_in { k < table.now.count }
    ensures ok { OnOk result (Adds clauses.old clauses.new (RingClause (lit_in table.now) i j k)) }
    ensures err { OnErr result (Grows clauses.old clauses.new) }
{
    add_triple(clauses, table.lit(j, i), table.lit(k, j), table.lit(i, k))?;
    add_triple(clauses, table.lit(k, i), table.lit(j, k), table.lit(i, j))?;
    Ok(())
}

// The clauses of two places and each smaller one.
fn add_rings_of_two(
    table: &Table,
    clauses: &mut ClauseStore<'_>,
    i: usize,
    j: usize,
) -> Result<(), Memory>
    requires square { IsSquare table.now }
    requires known { KnowsTable clauses.old.vars table.now }
    requires i_in { i < table.now.count }
    requires j_in { j < i }
    ensures ok { OnOk result (Adds clauses.old clauses.new (Below j (λ k. RingClause (lit_in table.now) i j k))) }
    ensures err { OnErr result (Grows clauses.old clauses.new) }
{
    for k in 0..j {
        add_ring(table, clauses, i, j, k)?;
    }
    Ok(())
}

// The clauses of one place and each two smaller ones.
fn add_rings_of(table: &Table, clauses: &mut ClauseStore<'_>, i: usize) -> Result<(), Memory>
    requires square { IsSquare table.now }
    requires known { KnowsTable clauses.old.vars table.now }
    requires i_in { i < table.now.count }
    ensures ok { OnOk result (Adds clauses.old clauses.new (Below i (λ j. Below j (λ k. RingClause (lit_in table.now) i j k)))) }
    ensures err { OnErr result (Grows clauses.old clauses.new) }
{
    for j in 0..i {
        add_rings_of_two(table, clauses, i, j)?;
    }
    Ok(())
}

/// The clauses of all three places.
pub fn add_rings(table: &Table, clauses: &mut ClauseStore<'_>) -> Result<(), Memory>
    requires square { IsSquare table.now }
    requires known { KnowsTable clauses.old.vars table.now }
    ensures ok { OnOk result (Adds clauses.old clauses.new (RingClauses table.now.count (lit_in table.now))) }
    ensures err { OnErr result (Grows clauses.old clauses.new) }
{
    for i in 0..table.count {
        add_rings_of(table, clauses, i)?;
    }
    Ok(())
}
