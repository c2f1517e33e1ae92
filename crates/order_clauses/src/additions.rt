//! Single order clauses.
ghost use Rattle.clause_store.specs.Formula.{Grows};
ghost use Rattle.std.specs.Prelude.{OnOk, OnErr};
ghost use Rattle.order_clauses.specs.Clauses.{Adds, PairClause, TripleClause, RingClause};
ghost use Rattle.order_clauses.specs.Grid.{IsKnownOrder, KnowsTable, IsSquare, lit_in};
ghost use Rattle.std.specs.Prelude.{◌<◌};

use crate::order_lit::OrderLit;
use crate::table::Table;
use clause_store::store::ClauseStore;
use odr_list::memory::Memory;

/// One of two order literals; no clause where one of them is none.
pub fn add_pair(clauses: &mut ClauseStore<'_>, p: OrderLit, q: OrderLit) -> Result<(), Memory>
    requires p_known { IsKnownOrder clauses.old.vars p }
    requires q_known { IsKnownOrder clauses.old.vars q }
    ensures ok { OnOk result (Adds clauses.old clauses.new (PairClause p q)) }
    ensures err { OnErr result (Grows clauses.old clauses.new) }
{
    if let (OrderLit::Is(one), OrderLit::Is(other)) = (p, q) {
        clauses.add(&[one, other])?;
    }
    Ok(())
}

/// One of three order literals; no clause where one of them is none.
pub fn add_triple(
    clauses: &mut ClauseStore<'_>,
    p: OrderLit,
    q: OrderLit,
    r: OrderLit,
) -> Result<(), Memory>
    requires p_known { IsKnownOrder clauses.old.vars p }
    requires q_known { IsKnownOrder clauses.old.vars q }
    requires r_known { IsKnownOrder clauses.old.vars r }
    ensures ok { OnOk result (Adds clauses.old clauses.new (TripleClause p q r)) }
    ensures err { OnErr result (Grows clauses.old clauses.new) }
{
    if let (OrderLit::Is(one), OrderLit::Is(other), OrderLit::Is(third)) = (p, q, r) {
        clauses.add(&[one, other, third])?;
    }
    Ok(())
}
