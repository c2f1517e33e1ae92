//! The clauses of one reader: it sees the newest write before it, else the initial bits.
ghost use Rattle.std.specs.Prelude.{◌<◌, ◌+◌, length, OnOk, OnErr};
ghost use Rattle.clause_store.specs.Formula.{Grows};
ghost use Rattle.order_clauses.specs.Clauses.{Adds};
ghost use Rattle.source_clauses.specs.Clauses.{selection_at, OlderClause, UnwrittenClause, WrittenBits, Copied};
ghost use Rattle.source_clauses.specs.Contract.{KnowsReader, AddsReader};
ghost use Rattle.source_clauses.specs.Named.{KnowsNamed, ReaderClause};

use crate::copied::add_bits;
use crate::implied::add_implied;
use crate::named::Named;
use crate::newest::{add_newest_of_all, nexts_of};
use crate::olders::olders_of;
use crate::reader::Reader;
use crate::selected::selections;
use clause_store::store::ClauseStore;
use odr_list::memory::Memory;
use order_clauses::order_lit::OrderLit;
use order_clauses::table::Table;
use std::alloc::Global;

// A selected candidate is older than the reader.
fn add_older(
    table: &Table,
    clauses: &mut ClauseStore<'_>,
    reader: &Reader,
    named: &Named,
) -> Result<(), Memory>
    requires named_known { KnowsNamed clauses.old.vars table.now reader.now named.now }
    ensures ok { OnOk result (Adds clauses.old clauses.new (OlderClause (length reader.now.candidates) named.now.selected named.now.olders)) }
    ensures err { OnErr result (Grows clauses.old clauses.new) }
{
    for i in 0..reader.candidates.len() {
        add_implied(
            clauses,
            named.selection(i),
            OrderLit::Always,
            named.older(i),
        )?;
    }
    Ok(())
}

// Where the initial bits are selected, no candidate is older than the reader.
fn add_unwritten(
    table: &Table,
    clauses: &mut ClauseStore<'_>,
    reader: &Reader,
    named: &Named,
) -> Result<(), Memory>
    requires named_known { KnowsNamed clauses.old.vars table.now reader.now named.now }
    ensures ok { OnOk result (Adds clauses.old clauses.new (UnwrittenClause (length reader.now.candidates) (selection_at named.now.selected (length reader.now.candidates)) named.now.olders)) }
    ensures err { OnErr result (Grows clauses.old clauses.new) }
{
    let unwritten = named.selection(reader.candidates.len());
    for j in 0..reader.candidates.len() {
        add_implied(clauses, unwritten, named.older(j), OrderLit::Never)?;
    }
    Ok(())
}

// A selected candidate's bits are read.
fn add_written(
    table: &Table,
    clauses: &mut ClauseStore<'_>,
    reader: &Reader,
    named: &Named,
) -> Result<(), Memory>
    requires reader_known { KnowsReader clauses.old.vars table.now reader.now }
    requires named_known { KnowsNamed clauses.old.vars table.now reader.now named.now }
    ensures ok { OnOk result (Adds clauses.old clauses.new (WrittenBits reader.now named.now.selected)) }
    ensures err { OnErr result (Grows clauses.old clauses.new) }
{
    for i in 0..reader.candidates.len() {
        add_bits(
            clauses,
            named.selection(i),
            reader.candidate(i).bits.as_slice(),
            reader.read.as_slice(),
        )?;
    }
    Ok(())
}

// Where the initial bits are selected, they are read.
fn add_initial(
    table: &Table,
    clauses: &mut ClauseStore<'_>,
    reader: &Reader,
    named: &Named,
) -> Result<(), Memory>
    requires reader_known { KnowsReader clauses.old.vars table.now reader.now }
    requires named_known { KnowsNamed clauses.old.vars table.now reader.now named.now }
    ensures ok { OnOk result (Adds clauses.old clauses.new (Copied (selection_at named.now.selected (length reader.now.candidates)) reader.now.initial reader.now.read)) }
    ensures err { OnErr result (Grows clauses.old clauses.new) }
{
    let unwritten = named.selection(reader.candidates.len());
    add_bits(
        clauses,
        unwritten,
        reader.initial.as_slice(),
        reader.read.as_slice(),
    )?;
    Ok(())
}

// The clauses of selections that are known: some source is selected, and what follows of it.
fn add_selected(
    table: &Table,
    clauses: &mut ClauseStore<'_>,
    reader: &Reader,
    named: &Named,
) -> Result<(), Memory>
    requires reader_known { KnowsReader clauses.old.vars table.now reader.now }
    requires named_known { KnowsNamed clauses.old.vars table.now reader.now named.now }
    ensures ok { OnOk result (Adds clauses.old clauses.new (ReaderClause table.now reader.now named.now)) }
    ensures err { OnErr result (Grows clauses.old clauses.new) }
{
    clauses.add(named.selected.as_slice())?;
    add_older(table, clauses, reader, named)?;
    add_newest_of_all(table, clauses, reader, named)?;
    add_unwritten(table, clauses, reader, named)?;
    add_written(table, clauses, reader, named)?;
    add_initial(table, clauses, reader, named)?;
    Ok(())
}

/// Makes a reader see the newest of its candidates that stand before it and hit, else the initial bits, by a new
/// variable for each source and clauses on which of them is selected.
///
/// # Errors
///
/// `Memory` alone, which leaves older variables and clauses.
pub fn add_reader(
    alloc: Global,
    table: &Table,
    clauses: &mut ClauseStore<'_>,
    reader: &Reader,
) -> Result<(), Memory>
    requires known { KnowsReader clauses.old.vars table.now reader.now }
    ensures ok { OnOk result (AddsReader clauses.old clauses.new table.now reader.now) }
    ensures err { OnErr result (Grows clauses.old clauses.new) }
{
    let nexts = nexts_of(alloc, table, reader.candidates.as_slice())?;
    let olders = olders_of(alloc, table, clauses, reader)?;
    // The count tells that the clauses name known variables alone.
    let _vars = clauses.vars();
    let selected = selections(alloc, clauses, reader.candidates.len() + 1)?;
    let named = Named {
        selected,
        olders,
        nexts,
    };
    add_selected(table, clauses, reader, &named)?;
    Ok(())
}
