//! Two conditions in one.
ghost use Rattle.std.specs.Prelude.{◌<◌, IfOk, OnErr};
ghost use Rattle.clause_store.specs.Formula.{Grows};
ghost use Rattle.order_clauses.specs.declared.order_lit.OrderLit.TheVariants as order_lit;
ghost use Rattle.order_clauses.specs.Grid.{IsKnownOrder};
ghost use Rattle.source_clauses.specs.Conditions.{IsBoth};

use bit_gates::gates::and;
use clause_store::lit::Lit;
use clause_store::store::ClauseStore;
use odr_list::memory::Memory;
use order_clauses::order_lit::OrderLit;

// The condition that is true exactly where two literals are.
fn gate(clauses: &mut ClauseStore<'_>, one: Lit, other: Lit) -> Result<OrderLit, Memory>
    requires one_known { one.var < clauses.old.vars }
    requires other_known { other.var < clauses.old.vars }
    ensures both { IfOk result (IsBoth clauses.old clauses.new (order_lit.Is one) (order_lit.Is other)) }
    ensures err { OnErr result (Grows clauses.old clauses.new) }
{
    let out = and(clauses, one, other)?;
    Ok(OrderLit::Is(out))
}

// The condition that is true exactly where a literal and a condition are.
fn both_of_literal(
    clauses: &mut ClauseStore<'_>,
    one: Lit,
    second: OrderLit,
) -> Result<OrderLit, Memory>
    requires one_known { one.var < clauses.old.vars }
    requires second_known { IsKnownOrder clauses.old.vars second }
    ensures both { IfOk result (IsBoth clauses.old clauses.new (order_lit.Is one) second) }
    ensures err { OnErr result (Grows clauses.old clauses.new) }
{
    match second {
        OrderLit::Always => Ok(OrderLit::Is(one)),
        OrderLit::Never => Ok(OrderLit::Never),
        OrderLit::Is(other) => gate(clauses, one, other),
    }
}

/// The condition that is true exactly where two others are, by a gate where both are literals.
pub fn both(
    clauses: &mut ClauseStore<'_>,
    first: OrderLit,
    second: OrderLit,
) -> Result<OrderLit, Memory>
    requires first_known { IsKnownOrder clauses.old.vars first }
    requires second_known { IsKnownOrder clauses.old.vars second }
    ensures both { IfOk result (IsBoth clauses.old clauses.new first second) }
    ensures err { OnErr result (Grows clauses.old clauses.new) }
{
    match first {
        OrderLit::Always => Ok(second),
        OrderLit::Never => Ok(OrderLit::Never),
        OrderLit::Is(one) => both_of_literal(clauses, one, second),
    }
}
