//! All order clauses of a table.
ghost use Rattle.std.specs.Prelude.{OnOk, OnErr};
ghost use Rattle.clause_store.specs.Formula.{Grows};
ghost use Rattle.order_clauses.specs.Clauses.{Adds, OrderClause};
ghost use Rattle.order_clauses.specs.Grid.{KnowsTable, IsSquare, recorded_in, lit_in};

use crate::neighbours::add_neighbours;
use crate::rings::add_rings;
use crate::table::Table;
use clause_store::store::ClauseStore;
use odr_list::memory::Memory;

/// The clauses of recorded neighbours and those of three places.
pub fn add_order(table: &Table, clauses: &mut ClauseStore<'_>) -> Result<(), Memory>
    requires square { IsSquare table.now }
    requires known { KnowsTable clauses.old.vars table.now }
    ensures ok { OnOk result (Adds clauses.old clauses.new (OrderClause table.now.count (recorded_in table.now) (lit_in table.now))) }
    ensures err { OnErr result (Grows clauses.old clauses.new) }
{
    add_neighbours(table, clauses)?;
    add_rings(table, clauses)?;
    Ok(())
}
