//! What the search answers.

use crate::edits::Edit;
use crate::formulas::{
    Pigeons, TOLD, Told, add, add_chain, add_pigeons, add_random, add_told, listed, not,
};
use crate::plain::{has_model, satisfies, set_of};
use crate::verdicts::agreed;
use bumpalo::Bump;
use clause_check::verdict::Verdict;
use clause_store::Memory;
use clause_store::derivation::Derivation;
use clause_store::store::ClauseStore;
use sat_core::answer::Answer;
use sat_core::solver::Solver;
use std::alloc::Global;
use std::process::Abort;
use std::test::Fail;

/// Numbers of variables that are decided first: none, some, all.
static FIRST: [u64; 3] = [0, 4, 64];

/// Budgets that pigeons spend.
static BUDGETS: [u64; 3] = [1, 2, 10];

/// The answer where so many variables are decided first.
pub fn answer_of(
    alloc: Global,
    store: &ClauseStore<'_>,
    first: u64,
    budget: u64,
) -> Result<Answer, Memory> {
    let first = listed(alloc, store.vars(), first)?;
    Solver::new(alloc, store, first.as_slice())?.solve(alloc, budget.max(1))
}

/// Whether the answer within 1,000 lines is the one that is told, and right as far as the test can see.
fn is_right(
    alloc: Global,
    store: &ClauseStore<'_>,
    first: u64,
    has_model: bool,
) -> Result<bool, Memory> {
    match answer_of(alloc, store, first, 1000)? {
        Answer::Model(values) => Ok(has_model && satisfies(store, values.as_slice())),
        Answer::Refuted(lines) => {
            let verdict = agreed(alloc, store, &lines, Edit::Nothing)?;
            Ok(!has_model && verdict == Some(Verdict::Refuted))
        }
        Answer::Spent(_) => Ok(false),
    }
}

/// Whether it is so whichever variables are decided first.
fn is_right_by_any(
    alloc: Global,
    store: &ClauseStore<'_>,
    has_model: bool,
) -> Result<bool, Memory> {
    for first in &FIRST {
        if !is_right(alloc, store, *first, has_model)? {
            return Ok(false);
        }
    }
    Ok(true)
}

fn try_told(rt: &impl Abort, alloc: Global, told: Told, has_model: bool) -> Result<(), Fail> {
    let arena = Bump::new(alloc);
    let mut store = ClauseStore::new(alloc, &arena);
    add_told(alloc, &mut store, told)?;
    assert!(rt; is_right_by_any(alloc, &store, has_model)?);
    Ok(())
}

#[test]
fn told_formulas(rt: HostRuntime) -> Result<(), Fail> {
    for row in &TOLD {
        let (told, has_model) = *row;
        try_told(&rt, rt.alloc(), told, has_model)?;
    }
    Ok(())
}

fn try_pigeons(rt: &impl Abort, alloc: Global, pigeons: Pigeons) -> Result<(), Fail> {
    let arena = Bump::new(alloc);
    let mut store = ClauseStore::new(alloc, &arena);
    add_pigeons(alloc, &mut store, pigeons)?;
    assert!(rt; is_right_by_any(alloc, &store, false)?);
    Ok(())
}

#[test]
fn pigeons_lack_a_hole(rt: HostRuntime) -> Result<(), Fail> {
    try_pigeons(&rt, rt.alloc(), Pigeons::Four)?;
    try_pigeons(&rt, rt.alloc(), Pigeons::Five)?;
    try_pigeons(&rt, rt.alloc(), Pigeons::Six)
}

/// Random clauses; whether they have a model.
fn try_random(
    rt: &impl Abort,
    alloc: Global,
    vars: u64,
    clauses: u64,
    seed: u64,
) -> Result<bool, Fail> {
    let arena = Bump::new(alloc);
    let mut store = ClauseStore::new(alloc, &arena);
    add_random(alloc, &mut store, vars, clauses, seed)?;
    let has_model = has_model(&store);
    assert!(rt; is_right_by_any(alloc, &store, has_model)?);
    Ok(has_model)
}

/// Three to six clauses a variable; both answers come often.
#[test]
fn random_clauses_beside_all_assignments(rt: HostRuntime) -> Result<(), Fail> {
    let mut with_model: u64 = 0;
    for seed in 0..200 {
        let vars = 3 + seed % 8;
        let clauses = vars * (3 + seed / 8 % 4);
        if try_random(&rt, rt.alloc(), vars, clauses, seed)? {
            with_model = with_model.saturating_add(1);
        }
    }
    assert!(rt; 40 < with_model && with_model < 160);
    Ok(())
}

/// Whether a line has the literals of no earlier one.
fn is_new(lines: &Derivation, number: usize) -> bool {
    let mut found = 0_usize;
    for at in 0..lines.len() {
        if number < lines.len() && set_of(lines.line(at)) == set_of(lines.line(number)) {
            found = found.saturating_add(1);
        }
    }
    found == 1
}

fn all_new(lines: &Derivation) -> bool {
    for at in 0..lines.len() {
        if !is_new(lines, at) {
            return false;
        }
    }
    true
}

fn try_budget(rt: &impl Abort, alloc: Global, first: u64, budget: u64) -> Result<(), Fail> {
    let arena = Bump::new(alloc);
    let mut store = ClauseStore::new(alloc, &arena);
    add_pigeons(alloc, &mut store, Pigeons::Six)?;
    let Answer::Spent(lines) = answer_of(alloc, &store, first, budget)? else {
        assert!(rt; false);
        return Ok(());
    };
    let verdict = agreed(alloc, &store, &lines, Edit::Nothing)?;
    assert!(rt; verdict == Some(Verdict::Holds { lines: budget }));
    assert!(rt; all_new(&lines));
    Ok(())
}

#[test]
fn budgets_are_spent_whole(rt: HostRuntime) -> Result<(), Fail> {
    for budget in &BUDGETS {
        try_budget(&rt, rt.alloc(), 0, *budget)?;
        try_budget(&rt, rt.alloc(), 4, *budget)?;
        try_budget(&rt, rt.alloc(), 64, *budget)?;
    }
    Ok(())
}

/// A chain forces its last variable without a line learned.
#[test]
fn a_chain_of_ten_thousand(rt: HostRuntime) -> Result<(), Fail> {
    let arena = Bump::new(rt.alloc());
    let mut store = ClauseStore::new(rt.alloc(), &arena);
    add_chain(rt.alloc(), &mut store, 10_000)?;
    let is_model = matches!(answer_of(rt.alloc(), &store, 0, 1)?, Answer::Model(_));
    assert!(rt; is_model);
    add(rt.alloc(), &mut store, &[not(9_999)])?;
    let is_refuted = matches!(answer_of(rt.alloc(), &store, 0, 1)?, Answer::Refuted(_));
    assert!(rt; is_refuted);
    Ok(())
}
