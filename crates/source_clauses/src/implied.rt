//! Clauses that say what follows where a source is selected.
ghost use Rattle.std.specs.Prelude.{◌≡◌, ◌<◌, ◌++◌, OnOk, OnErr};
ghost use Rattle.order_clauses.specs.Grid.{IsKnownOrder};
ghost use Rattle.source_clauses.specs.Clauses.{implied, implied_surely, implied_where};

use clause_store::lit::Lit;
use clause_store::store::ClauseStore;
use odr_list::memory::Memory;
use order_clauses::order_lit::OrderLit;

// Where the selection is true, the condition is.
fn add_surely(
    clauses: &mut ClauseStore<'_>,
    selection: Lit,
    follows: OrderLit,
) -> Result<(), Memory>
    requires selection_known { selection.var < clauses.old.vars }
    requires follows_known { IsKnownOrder clauses.old.vars follows }
    ensures ok { OnOk result (clauses.new ≡ record clauses.old { clauses = clauses.old.clauses ++ implied_surely selection follows }) }
    ensures err { OnErr result (clauses.new ≡ clauses.old) }
{
    match follows {
        OrderLit::Always => Ok(()),
        OrderLit::Never => clauses.add(&[selection.opposite()]),
        OrderLit::Is(lit) => clauses.add(&[selection.opposite(), lit]),
    }
}

// Where the selection and a literal are true, the condition is.
fn add_where(
    clauses: &mut ClauseStore<'_>,
    selection: Lit,
    given: Lit,
    follows: OrderLit,
) -> Result<(), Memory>
    requires selection_known { selection.var < clauses.old.vars }
    requires given_known { given.var < clauses.old.vars }
    requires follows_known { IsKnownOrder clauses.old.vars follows }
    ensures ok { OnOk result (clauses.new ≡ record clauses.old { clauses = clauses.old.clauses ++ implied_where selection given follows }) }
    ensures err { OnErr result (clauses.new ≡ clauses.old) }
{
    match follows {
        OrderLit::Always => Ok(()),
        OrderLit::Never => clauses.add(&[selection.opposite(), given.opposite()]),
        OrderLit::Is(lit) => clauses.add(&[selection.opposite(), given.opposite(), lit]),
    }
}

/// Where the selection and the given condition are true, the other condition is.
pub fn add_implied(
    clauses: &mut ClauseStore<'_>,
    selection: Lit,
    given: OrderLit,
    follows: OrderLit,
) -> Result<(), Memory>
    requires selection_known { selection.var < clauses.old.vars }
    requires given_known { IsKnownOrder clauses.old.vars given }
    requires follows_known { IsKnownOrder clauses.old.vars follows }
    ensures ok { OnOk result (clauses.new ≡ record clauses.old { clauses = clauses.old.clauses ++ implied selection given follows }) }
    ensures err { OnErr result (clauses.new ≡ clauses.old) }
{
    match given {
        OrderLit::Never => Ok(()),
        OrderLit::Always => add_surely(clauses, selection, follows),
        OrderLit::Is(lit) => add_where(clauses, selection, lit, follows),
    }
}
