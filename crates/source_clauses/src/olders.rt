//! Whether each candidate stands before the reader and hits.
ghost use Rattle.std.specs.Prelude.{◌<◌, length, IfOk, OnErr};
ghost use Rattle.clause_store.specs.Formula.{Grows};
ghost use Rattle.source_clauses.specs.Conditions.{IsBoth};
ghost use Rattle.source_clauses.specs.Contract.{KnowsReader};
ghost use Rattle.source_clauses.specs.Olders.{AreOlders};
ghost use Rattle.source_clauses.specs.Sees.{before_reader, candidate_at};

use crate::both::both;
use crate::reader::Reader;
use clause_store::store::ClauseStore;
use odr_list::list::List;
use odr_list::memory::Memory;
use order_clauses::order_lit::OrderLit;
use order_clauses::table::Table;
use std::alloc::Global;

// Whether one candidate stands before the reader and hits.
fn older(
    table: &Table,
    clauses: &mut ClauseStore<'_>,
    reader: &Reader,
    i: usize,
) -> Result<OrderLit, Memory>
    requires known { KnowsReader clauses.old.vars table.now reader.now }
    requires listed { i < length reader.now.candidates }
    ensures both { IfOk result (IsBoth clauses.old clauses.new (before_reader table.now reader.now i) (candidate_at reader.now.candidates i).hit) }
    ensures err { OnErr result (Grows clauses.old clauses.new) }
{
    let candidate = reader.candidate(i);
    both(clauses, table.lit(candidate.at, reader.at), candidate.hit)
}

/// The same of each candidate, in their order.
pub fn olders_of(
    alloc: Global,
    table: &Table,
    clauses: &mut ClauseStore<'_>,
    reader: &Reader,
) -> Result<List<OrderLit>, Memory>
    requires known { KnowsReader clauses.old.vars table.now reader.now }
    ensures olders { IfOk result (AreOlders clauses.old clauses.new table.now reader.now (length reader.now.candidates)) }
    ensures err { OnErr result (Grows clauses.old clauses.new) }
{
    let mut olders = List::new(alloc);
    for i in 0..reader.candidates.len() {
        let condition = older(table, clauses, reader, i)?;
        olders.push(condition)?;
    }
    Ok(olders)
}
