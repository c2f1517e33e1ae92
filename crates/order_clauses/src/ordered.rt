//! A table with its variables and all its clauses.
ghost use Rattle.std.specs.Prelude.{◌≡◌, ◌*◌, length, IfOk, OnErr};
ghost use Rattle.clause_store.specs.Formula.{Grows};
ghost use Rattle.order_clauses.specs.Ordered.{IsOrdered};

use crate::numbering::table_of;
use crate::order::add_order;
use crate::table::Table;
use clause_store::store::ClauseStore;
use odr_list::list::List;
use odr_list::memory::Memory;
use std::alloc::Global;

/// A table whose variables are known to a formula, with the clauses that make its literals total orders.
#[derive(Debug, Drop)]
pub struct OrderedTable {
    /// The variable of the first pair.
    pub first: u64,
    /// The table.
    pub table: Table,
}

/// The table of so many places, with a new variable for each pair that isn't recorded either way round, and the
/// clauses that make its literals the total orders that keep what is recorded.
pub fn ordered_table(
    alloc: Global,
    count: usize,
    recorded: List<bool>,
    clauses: &mut ClauseStore<'_>,
) -> Result<OrderedTable, Memory>
    requires square { length recorded ≡ count * count }
    ensures ordered { IfOk result (IsOrdered count recorded clauses.old clauses.new) }
    ensures err { OnErr result (Grows clauses.old clauses.new) }
{
    let first = clauses.vars();
    let table = table_of(alloc, count, recorded, clauses)?;
    add_order(&table, clauses)?;
    Ok(OrderedTable { first, table })
}
