//! The store-conditional that is built of rivals, and its clauses.
ghost use Rattle.std.specs.Prelude.{◌≡◌, ◌<◌, ◌∷◌, [], length, All, IfOk, OnErr, OnOk};
ghost use Rattle.bit_clauses.specs.Bits.{IsBuilt};
ghost use Rattle.clause_store.specs.Formula.{Grows};
ghost use Rattle.encoder.specs.Encodes.{Encodes, IsKnown};
ghost use Rattle.formula_parts.specs.Facts.{Succeeds};
ghost use Rattle.formula_parts.specs.Order.{Setting};
ghost use Rattle.formula_parts.specs.Parts.{Adds};
ghost use Rattle.outcome_parts.specs.declared.rival.Rival.{Rival};
ghost use Rattle.outcome_parts.specs.Outcomes.{CanSucceed};
ghost use Rattle.outcome_parts.specs.Rivals.{AreEndersOf, IsBuiltConditional, IsEnderOf, KnowsRival, conditional_parts, first_literal, rival_parts, touch_parts};
ghost use Rattle.reader_parts.specs.Conditions.{HasTerms};
ghost use Rattle.step_terms.specs.Made.{IsTerm};
ghost use Rattle.term_sources.specs.Sees.{access_at};

use crate::rival::Rival;
use crate::touching::{address_condition, touch_condition};
use bv_rewrite::rewrite::Rewrite;
use bv_terms::node::TermId;
use clause_store::lit::Lit;
use encoder::encoder::Encoder;
use odr_list::list::List;
use odr_list::memory::Memory;
use outcome_clauses::outcomes::add_outcome;
use outcome_clauses::store_conditional::{Ender, StoreConditional};
use std::alloc::Global;
use thread_terms::access::Access;

// The ender of a rival.
fn ender_of<R: Rewrite>(
    encoder: &mut Encoder<'_>,
    alloc: Global,
    book: &R,
    accesses: &[Access],
    reserved: usize,
    rival: Rival,
) -> Result<Ender, Memory>
    requires terms { All (HasTerms encoder.old.pool) accesses.now }
    requires reserved { reserved < length accesses.now }
    requires rival { rival.access < length accesses.now }
    requires known { IsKnown encoder.old }
    ensures encodes { IfOk result (λ ender. Encodes encoder.old encoder.new
        (touch_parts (access_at accesses.now rival.access) (access_at accesses.now reserved))) }
    ensures ender { IfOk result (λ ender. IsEnderOf encoder.old.pool encoder.new accesses.now reserved rival ender) }
    ensures err { OnErr result (Grows encoder.old.clauses encoder.new.clauses) }
{
    let writer = &accesses[rival.access];
    let word = &accesses[reserved];
    let hit = touch_condition(encoder, alloc, book, writer, word)?;
    Ok(Ender {
        after: rival.after,
        before: rival.before,
        hit,
    })
}

// An ender for each rival, in their order.
fn enders_of<R: Rewrite>(
    encoder: &mut Encoder<'_>,
    alloc: Global,
    book: &R,
    accesses: &[Access],
    reserved: usize,
    rivals: &[Rival],
) -> Result<List<Ender>, Memory>
    requires terms { All (HasTerms encoder.old.pool) accesses.now }
    requires reserved { reserved < length accesses.now }
    requires rivals { All (λ (rival : Rival). rival.access < length accesses.now) rivals.now }
    requires known { IsKnown encoder.old }
    ensures encodes { IfOk result (λ enders. Encodes encoder.old encoder.new (rival_parts accesses.now reserved rivals.now)) }
    ensures enders { IfOk result (λ enders. AreEndersOf encoder.old.pool encoder.new accesses.now reserved rivals.now enders) }
    ensures err { OnErr result (Grows encoder.old.clauses encoder.new.clauses) }
{
    let mut enders = List::new(alloc);
    for k in 0..rivals.len() {
        let ender = ender_of(encoder, alloc, book, accesses, reserved, rivals[k])?;
        enders.push(ender)?;
    }
    Ok(enders)
}

// The first literal of a term.
fn literal_of(encoder: &mut Encoder<'_>, alloc: Global, term: TermId) -> Result<Lit, Memory>
    requires term { IsTerm encoder.old.pool 1 term.number }
    requires known { IsKnown encoder.old }
    ensures encodes { IfOk result (λ literal. Encodes encoder.old encoder.new (term.number ∷ [])) }
    ensures built { IfOk result (λ literal. IsBuilt encoder.new.blaster term.number) }
    ensures literal { IfOk result (λ literal. literal ≡ first_literal encoder.new term.number) }
    ensures err { OnErr result (Grows encoder.old.clauses encoder.new.clauses) }
{
    let mut lits = List::new(alloc);
    encoder.append(alloc, term, &mut lits)?;
    let literal = lits.as_slice()[0];
    Ok(literal)
}

/// The store-conditional of an access that looks back to a load-reserved, with an ender for each rival. Its outcome is its guard.
///
/// # Errors
///
/// `Memory` alone, which leaves older variables and clauses; the encoder isn't to be used any more.
pub fn built_conditional<R: Rewrite>(
    encoder: &mut Encoder<'_>,
    alloc: Global,
    book: &R,
    accesses: &[Access],
    reserved: usize,
    access: usize,
    rivals: &[Rival],
) -> Result<StoreConditional, Memory>
    requires terms { All (HasTerms encoder.old.pool) accesses.now }
    requires reserved { reserved < length accesses.now }
    requires access { access < length accesses.now }
    requires rivals { All (λ (rival : Rival). rival.access < length accesses.now) rivals.now }
    requires known { IsKnown encoder.old }
    ensures encodes { IfOk result (λ sc. Encodes encoder.old encoder.new (conditional_parts accesses.now reserved access rivals.now)) }
    ensures built { IfOk result (λ sc. IsBuiltConditional encoder.old.pool encoder.new accesses.now reserved access rivals.now sc) }
    ensures err { OnErr result (Grows encoder.old.clauses encoder.new.clauses) }
{
    let enders = enders_of(encoder, alloc, book, accesses, reserved, rivals)?;
    let conditional = &accesses[access];
    let same = address_condition(encoder, alloc, book, &accesses[reserved], conditional)?;
    let outcome = literal_of(encoder, alloc, conditional.guard)?;
    Ok(StoreConditional {
        same,
        enders,
        outcome,
    })
}

/// Makes a store-conditional write exactly where it succeeds.
///
/// # Errors
///
/// As above.
pub fn add_success<R: Rewrite>(
    encoder: &mut Encoder<'_>,
    alloc: Global,
    book: &R,
    accesses: &[Access],
    reserved: usize,
    access: usize,
    rivals: &[Rival],
) -> Result<(), Memory>
    requires terms { All (HasTerms encoder.old.pool) accesses.now }
    requires reserved { reserved < length accesses.now }
    requires access { access < length accesses.now }
    requires rivals { All (KnowsRival encoder.old.clauses.vars (length accesses.now)) rivals.now }
    requires known { IsKnown encoder.old }
    ensures adds { OnOk result ((setting : Setting) → setting.accesses ≡ accesses.now → CanSucceed setting encoder.old reserved access rivals.now
        → Adds setting encoder.old encoder.new (Succeeds access ∷ [])) }
    ensures err { OnErr result (Grows encoder.old.clauses encoder.new.clauses) }
{
    let sc = built_conditional(encoder, alloc, book, accesses, reserved, access, rivals)?;
    add_outcome(alloc, &mut encoder.clauses, &sc)?;
    Ok(())
}
