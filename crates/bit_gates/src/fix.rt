//! The clauses that fix an output. In each the literal that the others force stands last.
ghost use Rattle.std.specs.Prelude.{◌≡◌, ◌+◌, ◌<◌, [], ◌∷◌, ◌++◌, true, IfOk, OnOk, OnErr};
ghost use Rattle.clause_store.specs.Formula.{AllKnown, Grows};
ghost use Rattle.bit_gates.specs.Fixed.{and_clauses, mux_clauses};

use clause_store::lit::Lit;
use clause_store::store::ClauseStore;
use odr_list::memory::Memory;

/// A new variable, as a literal.
pub fn fresh_literal(clauses: &mut ClauseStore<'_>) -> Result<Lit, Memory>
    ensures literal { IfOk result (λ out. out ≡ record { var = clauses.old.vars; positive = true }) }
    ensures ok { OnOk result (clauses.new ≡ record clauses.old { vars = clauses.old.vars + 1 }) }
    ensures err { OnErr result (clauses.new ≡ clauses.old) }
    ensures known { AllKnown clauses.old }
{
    let var = clauses.fresh()?;
    Ok(Lit {
        var,
        positive: true,
    })
}

/// Fixes `out` as `a` and `b`.
pub fn fix_and(clauses: &mut ClauseStore<'_>, out: Lit, a: Lit, b: Lit) -> Result<(), Memory>
    requires out_known { out.var < clauses.old.vars }
    requires a_known { a.var < clauses.old.vars }
    requires b_known { b.var < clauses.old.vars }
    ensures ok { OnOk result (clauses.new ≡ record clauses.old { clauses = clauses.old.clauses ++ and_clauses a b out }) }
    ensures err { OnErr result (Grows clauses.old clauses.new) }
{
    clauses.add(&[a, out.opposite()])?;
    clauses.add(&[b, out.opposite()])?;
    clauses.add(&[a.opposite(), b.opposite(), out])
}

/// Fixes `out` as `yes` where `when` is true, else as `no`.
pub fn fix_mux(
    clauses: &mut ClauseStore<'_>,
    out: Lit,
    when: Lit,
    yes: Lit,
    no: Lit,
) -> Result<(), Memory>
    requires out_known { out.var < clauses.old.vars }
    requires when_known { when.var < clauses.old.vars }
    requires yes_known { yes.var < clauses.old.vars }
    requires no_known { no.var < clauses.old.vars }
    ensures ok { OnOk result (clauses.new ≡ record clauses.old { clauses = clauses.old.clauses ++ mux_clauses when yes no out }) }
    ensures err { OnErr result (Grows clauses.old clauses.new) }
{
    clauses.add(&[when.opposite(), yes.opposite(), out])?;
    clauses.add(&[when.opposite(), yes, out.opposite()])?;
    clauses.add(&[when, no.opposite(), out])?;
    clauses.add(&[when, no, out.opposite()])
}
