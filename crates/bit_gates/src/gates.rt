ghost use Rattle.std.specs.Prelude.{◌<◌, true, false, IfOk};
ghost use Rattle.clause_store.specs.Formula.{Grows};
ghost use Rattle.bit_gates.specs.Gate.{both, either, differ, agree, joined, chosen, IsGate, BothGive, OneGives, ChosenGives};

use crate::fix::{fix_and, fix_mux, fresh_literal};
use clause_store::lit::Lit;
use clause_store::store::ClauseStore;
use odr_list::memory::Memory;

/// The literal that is true exactly where `a` and `b` are. Want of memory leaves older variables and clauses.
pub fn and(clauses: &mut ClauseStore<'_>, a: Lit, b: Lit) -> Result<Lit, Memory>
    requires a_known { a.var < clauses.old.vars }
    requires b_known { b.var < clauses.old.vars }
    ensures gate { IfOk result (λ out. IsGate clauses.old clauses.new (joined both a b) out) }
    ensures given { IfOk result (λ out. BothGive both clauses.new.clauses a b out) }
    ensures settled { IfOk result (λ out. OneGives false clauses.new.clauses a b out) }
    ensures grows { Grows clauses.old clauses.new }
{
    let out = fresh_literal(clauses)?;
    fix_and(clauses, out, a, b)?;
    Ok(out)
}

/// The literal that is true exactly where `a` or `b` is. Want of memory leaves older variables and clauses.
pub fn or(clauses: &mut ClauseStore<'_>, a: Lit, b: Lit) -> Result<Lit, Memory>
    requires a_known { a.var < clauses.old.vars }
    requires b_known { b.var < clauses.old.vars }
    ensures gate { IfOk result (λ out. IsGate clauses.old clauses.new (joined either a b) out) }
    ensures given { IfOk result (λ out. BothGive either clauses.new.clauses a b out) }
    ensures settled { IfOk result (λ out. OneGives true clauses.new.clauses a b out) }
    ensures grows { Grows clauses.old clauses.new }
{
    let neither = and(clauses, a.opposite(), b.opposite())?;
    Ok(neither.opposite())
}

/// The literal that is `yes` where `when` is true, else `no`. Want of memory leaves older variables and clauses.
pub fn mux(clauses: &mut ClauseStore<'_>, when: Lit, yes: Lit, no: Lit) -> Result<Lit, Memory>
    requires when_known { when.var < clauses.old.vars }
    requires yes_known { yes.var < clauses.old.vars }
    requires no_known { no.var < clauses.old.vars }
    ensures gate { IfOk result (λ out. IsGate clauses.old clauses.new (chosen when yes no) out) }
    ensures given { IfOk result (λ out. ChosenGives clauses.new.clauses when yes no out) }
    ensures grows { Grows clauses.old clauses.new }
{
    let out = fresh_literal(clauses)?;
    fix_mux(clauses, out, when, yes, no)?;
    Ok(out)
}

/// The literal that is true exactly where `a` and `b` differ. Want of memory leaves older variables and clauses.
pub fn xor(clauses: &mut ClauseStore<'_>, a: Lit, b: Lit) -> Result<Lit, Memory>
    requires a_known { a.var < clauses.old.vars }
    requires b_known { b.var < clauses.old.vars }
    ensures gate { IfOk result (λ out. IsGate clauses.old clauses.new (joined differ a b) out) }
    ensures given { IfOk result (λ out. BothGive differ clauses.new.clauses a b out) }
    ensures grows { Grows clauses.old clauses.new }
{
    mux(clauses, a, b.opposite(), b)
}

/// The literal that is true exactly where `a` and `b` agree. Want of memory leaves older variables and clauses.
pub fn same(clauses: &mut ClauseStore<'_>, a: Lit, b: Lit) -> Result<Lit, Memory>
    requires a_known { a.var < clauses.old.vars }
    requires b_known { b.var < clauses.old.vars }
    ensures gate { IfOk result (λ out. IsGate clauses.old clauses.new (joined agree a b) out) }
    ensures given { IfOk result (λ out. BothGive agree clauses.new.clauses a b out) }
    ensures grows { Grows clauses.old clauses.new }
{
    mux(clauses, a, b, b.opposite())
}
