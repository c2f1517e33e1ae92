//! A variable for each source of a reader.
ghost use Rattle.std.specs.Prelude.{◌≡◌, ◌+◌, IfOk, OnOk, OnErr};
ghost use Rattle.clause_store.specs.Formula.{Grows};
ghost use Rattle.source_clauses.specs.Clauses.{AreSelected};

use clause_store::lit::Lit;
use clause_store::store::ClauseStore;
use odr_list::list::List;
use odr_list::memory::Memory;
use std::alloc::Global;

/// So many new variables, as literals.
pub fn selections(
    alloc: Global,
    clauses: &mut ClauseStore<'_>,
    count: usize,
) -> Result<List<Lit>, Memory>
    ensures selected { IfOk result (AreSelected clauses.old.vars count) }
    ensures ok { OnOk result (clauses.new ≡ record clauses.old { vars = clauses.old.vars + count }) }
    ensures err { OnErr result (Grows clauses.old clauses.new) }
{
    let mut selected = List::new(alloc);
    for _ in 0..count {
        let var = clauses.fresh()?;
        selected.push(Lit {
            var,
            positive: true,
        })?;
    }
    Ok(selected)
}
