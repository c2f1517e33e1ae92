//! Clauses that make a literal true exactly where none of some conditions holds.
ghost use Rattle.std.specs.Prelude.{◌≡◌, ◌<◌, ◌↔◌, ◌++◌, All, Contains, IsTrue, IfOk, OnOk, OnErr};
ghost use Rattle.clause_store.specs.Formula.{Grows};
ghost use Rattle.order_clauses.specs.declared.order_lit.OrderLit.TheVariants as order_lit;
ghost use Rattle.order_clauses.specs.Grid.{IsKnownOrder};
ghost use Rattle.outcome_clauses.specs.NoneOf.{refutation, Refutes, IsEither, Affirms, IsNoneOf};

use clause_store::lit::Lit;
use clause_store::store::ClauseStore;
use odr_list::list::List;
use odr_list::memory::Memory;
use order_clauses::order_lit::OrderLit;
use std::alloc::Global;

// Where the condition holds, the literal is false.
fn add_refutation(
    clauses: &mut ClauseStore<'_>,
    literal: Lit,
    condition: OrderLit,
) -> Result<(), Memory>
    requires literal_known { literal.var < clauses.old.vars }
    requires condition_known { IsKnownOrder clauses.old.vars condition }
    ensures ok { OnOk result (clauses.new ≡ record clauses.old { clauses = clauses.old.clauses ++ refutation literal condition }) }
    ensures err { OnErr result (clauses.new ≡ clauses.old) }
{
    match condition {
        OrderLit::Never => Ok(()),
        OrderLit::Always => clauses.add(&[literal.opposite()]),
        OrderLit::Is(lit) => clauses.add(&[lit.opposite(), literal.opposite()]),
    }
}

// Where one of the conditions holds, the literal is false.
fn add_refutations(
    clauses: &mut ClauseStore<'_>,
    literal: Lit,
    conditions: &[OrderLit],
) -> Result<(), Memory>
    requires literal_known { literal.var < clauses.old.vars }
    requires conditions_known { All (IsKnownOrder clauses.old.vars) conditions.now }
    ensures ok { OnOk result (Refutes clauses.old clauses.new literal conditions.now) }
    ensures err { OnErr result (Grows clauses.old clauses.new) }
{
    for condition in conditions {
        add_refutation(clauses, literal, *condition)?;
    }
    Ok(())
}

// Whether one of the conditions always holds.
fn holds_surely(conditions: &[OrderLit]) -> bool
    ensures { IsTrue result ↔ Contains conditions.now order_lit.Always }
{
    for condition in conditions {
        if let OrderLit::Always = *condition {
            return true;
        }
    }
    false
}

// The literal, and those among the conditions.
fn either_of(alloc: Global, literal: Lit, conditions: &[OrderLit]) -> Result<List<Lit>, Memory>
    ensures { IfOk result (IsEither literal conditions.now) }
{
    let mut clause = List::new(alloc);
    clause.push(literal)?;
    for condition in conditions {
        if let OrderLit::Is(lit) = *condition {
            clause.push(lit)?;
        }
    }
    Ok(clause)
}

// Where none of the conditions holds, the literal is true.
fn add_affirmation(
    alloc: Global,
    clauses: &mut ClauseStore<'_>,
    literal: Lit,
    conditions: &[OrderLit],
) -> Result<(), Memory>
    requires literal_known { literal.var < clauses.old.vars }
    requires conditions_known { All (IsKnownOrder clauses.old.vars) conditions.now }
    ensures ok { OnOk result (Affirms clauses.old clauses.new literal conditions.now) }
    ensures err { OnErr result (clauses.new ≡ clauses.old) }
{
    if holds_surely(conditions) {
        return Ok(());
    }
    let clause = either_of(alloc, literal, conditions)?;
    clauses.add(clause.as_slice())
}

/// Makes the literal true exactly where none of the conditions holds.
pub fn add_none_of(
    alloc: Global,
    clauses: &mut ClauseStore<'_>,
    literal: Lit,
    conditions: &[OrderLit],
) -> Result<(), Memory>
    requires literal_known { literal.var < clauses.old.vars }
    requires conditions_known { All (IsKnownOrder clauses.old.vars) conditions.now }
    ensures ok { OnOk result (IsNoneOf clauses.old clauses.new literal conditions.now) }
    ensures err { OnErr result (Grows clauses.old clauses.new) }
{
    add_refutations(clauses, literal, conditions)?;
    add_affirmation(alloc, clauses, literal, conditions)?;
    Ok(())
}
