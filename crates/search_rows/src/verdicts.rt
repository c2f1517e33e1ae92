//! Verdicts on derivations as found, changed, and told by hand.

use crate::answers::answer_of;
use crate::edits::{Edit, edited};
use crate::formulas::{Pigeons, Told, add_pigeons, add_told, not, yes};
use crate::plain::verdict_of;
use bumpalo::Bump;
use clause_check::check;
use clause_check::verdict::Verdict;
use clause_store::Memory;
use clause_store::derivation::Derivation;
use clause_store::lit::Lit;
use clause_store::store::ClauseStore;
use sat_core::answer::Answer;
use std::alloc::Global;
use std::process::Abort;
use std::test::Fail;

/// The verdict on a changed derivation where `check` and the plain unit rule have the same.
pub fn agreed(
    alloc: Global,
    store: &ClauseStore<'_>,
    lines: &Derivation,
    edit: Edit,
) -> Result<Option<Verdict>, Memory> {
    let lines = edited(alloc, store.vars(), lines, edit)?;
    let verdict = check(alloc, store, &lines)?;
    if verdict == verdict_of(store, &lines) {
        Ok(Some(verdict))
    } else {
        Ok(None)
    }
}

/// Whether a changed derivation fails; the two verdicts must agree.
fn fails(
    rt: &impl Abort,
    alloc: Global,
    store: &ClauseStore<'_>,
    lines: &Derivation,
    edit: Edit,
) -> Result<bool, Fail> {
    let verdict = agreed(alloc, store, lines, edit)?;
    assert!(rt; verdict.is_some());
    Ok(matches!(verdict, Some(Verdict::Fails { line: _ })))
}

/// How many of the changed derivations fail, of those with a line left out and of those with a literal turned round.
fn failing(
    rt: &impl Abort,
    alloc: Global,
    store: &ClauseStore<'_>,
    lines: &Derivation,
) -> Result<(u64, u64), Fail> {
    let mut dropped: u64 = 0;
    let mut turned: u64 = 0;
    for at in 0..lines.len() {
        if fails(rt, alloc, store, lines, Edit::Drops(at))? {
            dropped = dropped.saturating_add(1);
        }
        if fails(rt, alloc, store, lines, Edit::Turns(at))? {
            turned = turned.saturating_add(1);
        }
    }
    Ok((dropped, turned))
}

/// Each line of a refutation of five pigeons is left out in turn, and its first literal turned round.
#[test]
fn changed_derivations(rt: HostRuntime) -> Result<(), Fail> {
    let arena = Bump::new(rt.alloc());
    let mut store = ClauseStore::new(rt.alloc(), &arena);
    add_pigeons(rt.alloc(), &mut store, Pigeons::Five)?;
    let Answer::Refuted(lines) = answer_of(rt.alloc(), &store, 64, 1000)? else {
        assert!(rt; false);
        return Ok(());
    };
    let (dropped, turned) = failing(&rt, rt.alloc(), &store, &lines)?;
    assert!(rt; 0 < dropped && 0 < turned);
    Ok(())
}

/// The verdict on two lines over clauses that were told by hand.
fn verdict_on(
    alloc: Global,
    told: Told,
    first: &[Lit],
    second: &[Lit],
) -> Result<Option<Verdict>, Memory> {
    let arena = Bump::new(alloc);
    let mut store = ClauseStore::new(alloc, &arena);
    add_told(alloc, &mut store, told)?;
    let mut lines = Derivation::new(alloc);
    lines.push(first)?;
    lines.push(second)?;
    agreed(alloc, &store, &lines, Edit::Nothing)
}

/// A line that doesn't follow.
#[test]
fn lines_that_fail(rt: HostRuntime) -> Result<(), Fail> {
    let alloc = rt.alloc();
    let first = verdict_on(alloc, Told::OpenSquare, &[not(7)], &[yes(7)])?;
    let second = verdict_on(alloc, Told::OpenSquare, &[yes(7)], &[])?;
    let stranger = verdict_on(alloc, Told::Chain, &[yes(3)], &[yes(4)])?;
    assert!(rt; first == Some(Verdict::Fails { line: 1 }));
    assert!(rt; second == Some(Verdict::Fails { line: 2 }));
    assert!(rt; stranger == Some(Verdict::Fails { line: 2 }));
    Ok(())
}

/// Anything follows after an empty line.
#[test]
fn lines_after_an_empty_one(rt: HostRuntime) -> Result<(), Fail> {
    let alloc = rt.alloc();
    let later = verdict_on(alloc, Told::ClosedChain, &[], &[not(8)])?;
    let again = verdict_on(alloc, Told::ClosedChain, &[], &[])?;
    let whole = verdict_on(alloc, Told::Square, &[yes(7)], &[])?;
    assert!(rt; later == Some(Verdict::Holds { lines: 2 }));
    assert!(rt; again == Some(Verdict::Refuted));
    assert!(rt; whole == Some(Verdict::Refuted));
    Ok(())
}
