//! Small formulas: models are tried, refutations are compared with all assignments, and lines with a propagation
//! of the test's own.
ghost use Rattle.std.specs.Prelude.{◌≡◌, ◌<◌, All, IfOk};

use crate::answer::Answer;
use crate::solver::Solver;
use bumpalo::Bump;
use clause_store::Memory;
use clause_store::derivation::Derivation;
use clause_store::lit::Lit;
use clause_store::store::ClauseStore;
use std::alloc::Global;
use std::test::Fail;

/// What is assumed or forced of up to 64 variables, a bit for each.
#[derive(Clone, Copy, Debug)]
struct Values {
    trues: u64,
    falses: u64,
}

fn bit(lit: Lit) -> u64 {
    1 << (lit.var % 64)
}

fn is_true(values: Values, lit: Lit) -> bool {
    let bits = if lit.positive {
        values.trues
    } else {
        values.falses
    };
    bits & bit(lit) != 0
}

fn with_true(values: Values, lit: Lit) -> Values {
    if lit.positive {
        Values {
            trues: values.trues | bit(lit),
            falses: values.falses,
        }
    } else {
        Values {
            trues: values.trues,
            falses: values.falses | bit(lit),
        }
    }
}

fn some_true(values: Values, clause: &[Lit]) -> bool {
    for lit in clause {
        if is_true(values, *lit) {
            return true;
        }
    }
    false
}

fn all_false(values: Values, clause: &[Lit]) -> Values {
    let mut values = values;
    for lit in clause {
        values = with_true(values, lit.opposite());
    }
    values
}

fn is_other(seen: Option<Lit>, lit: Lit) -> bool {
    match seen {
        Some(other) => other.var != lit.var || other.positive != lit.positive,
        None => false,
    }
}

/// The values with what a clause forces; none where it is false.
fn after(values: Values, clause: &[Lit]) -> Option<Values> {
    if some_true(values, clause) {
        return Some(values);
    }
    let mut only = None;
    for lit in clause {
        if !is_true(values, lit.opposite()) {
            if is_other(only, *lit) {
                return Some(values);
            }
            only = Some(*lit);
        }
    }
    Some(with_true(values, only?))
}

/// One pass over clauses and the lines before one; none where one of them is false.
fn pass<'a>(
    values: Values,
    store: &ClauseStore<'a>,
    lines: &Derivation,
    count: usize,
) -> Option<Values> {
    let mut values = values;
    for at in 0..store.len() {
        values = after(values, store.clause(at))?;
    }
    for at in 0..lines.len() {
        if at < count {
            values = after(values, lines.line(at))?;
        }
    }
    Some(values)
}

/// Whether a line follows from the clauses and the lines before it.
fn follows<'a>(store: &ClauseStore<'a>, lines: &Derivation, number: usize, line: &[Lit]) -> bool {
    let none = Values {
        trues: 0,
        falses: 0,
    };
    let mut values = all_false(none, line);
    for _round in 0..64 {
        let Some(more) = pass(values, store, lines, number) else {
            return true;
        };
        values = more;
    }
    false
}

fn all_follow<'a>(store: &ClauseStore<'a>, lines: &Derivation) -> bool {
    for at in 0..lines.len() {
        if !follows(store, lines, at, lines.line(at)) {
            return false;
        }
    }
    true
}

fn ends_empty(lines: &Derivation) -> bool {
    let count = lines.len();
    0 < count && lines.line(count - 1).is_empty()
}

fn satisfies<'a>(store: &ClauseStore<'a>, values: Values) -> bool {
    for at in 0..store.len() {
        if !some_true(values, store.clause(at)) {
            return false;
        }
    }
    true
}

/// Whether an assignment of ten variables satisfies the clauses.
fn has_model<'a>(store: &ClauseStore<'a>) -> bool {
    for bits in 0..1024 {
        let values = Values {
            trues: bits,
            falses: !bits,
        };
        if satisfies(store, values) {
            return true;
        }
    }
    false
}

fn values_of(model: &[bool]) -> Values {
    let mut values = Values {
        trues: 0,
        falses: 0,
    };
    for (at, positive) in model.iter().enumerate() {
        let lit = Lit {
            var: at as u64,
            positive: *positive,
        };
        values = with_true(values, lit);
    }
    values
}

/// Adds a clause of those literals whose variables are known.
fn add<'a>(alloc: Global, store: &mut ClauseStore<'a>, lits: &[Lit]) -> Result<(), Memory> {
    let vars = store.vars();
    let mut known = Vec::new(alloc);
    for lit in lits {
        if lit.var < vars {
            known.push(*lit)?;
        }
    }
    store.add(known.as_slice())
}

/// A number that looks random.
fn scattered(number: u64) -> u64 {
    let mixed = number.wrapping_mul(0x9e37_79b9_7f4a_7c15);
    (mixed ^ (mixed >> 29)).wrapping_mul(0xbf58_476d_1ce4_e5b9) >> 32
}

fn random_literal(number: u64) -> Lit {
    let bits = scattered(number);
    Lit {
        var: bits / 2 % 10,
        positive: bits % 2 == 0,
    }
}

/// Clauses of three literals over ten variables.
fn add_random<'a>(
    alloc: Global,
    store: &mut ClauseStore<'a>,
    seed: u64,
    count: u64,
) -> Result<(), Memory> {
    for _var in 0..10 {
        store.fresh()?;
    }
    for at in 0..count {
        let from = seed.wrapping_mul(1000).wrapping_add(at.wrapping_mul(3));
        let lits = [
            random_literal(from),
            random_literal(from.wrapping_add(1)),
            random_literal(from.wrapping_add(2)),
        ];
        add(alloc, store, lits.as_slice())?;
    }
    Ok(())
}

/// One of five pigeons is in one of four holes, or isn't.
fn is_in(pigeon: u64, hole: u64, positive: bool) -> Lit {
    Lit {
        var: pigeon % 5 * 4 + hole % 4,
        positive,
    }
}

/// A pigeon shares no hole with an earlier one.
fn add_apart<'a>(
    alloc: Global,
    store: &mut ClauseStore<'a>,
    pigeon: u64,
    hole: u64,
) -> Result<(), Memory> {
    for other in 0..pigeon {
        let lits = [is_in(pigeon, hole, false), is_in(other, hole, false)];
        add(alloc, store, lits.as_slice())?;
    }
    Ok(())
}

/// Five pigeons in four holes.
fn add_pigeons<'a>(alloc: Global, store: &mut ClauseStore<'a>) -> Result<(), Memory> {
    for _var in 0..20 {
        store.fresh()?;
    }
    for pigeon in 0..5 {
        let lits = [
            is_in(pigeon, 0, true),
            is_in(pigeon, 1, true),
            is_in(pigeon, 2, true),
            is_in(pigeon, 3, true),
        ];
        add(alloc, store, lits.as_slice())?;
        add_apart(alloc, store, pigeon, 0)?;
        add_apart(alloc, store, pigeon, 1)?;
        add_apart(alloc, store, pigeon, 2)?;
        add_apart(alloc, store, pigeon, 3)?;
    }
    Ok(())
}

/// The variables of a store below a number.
fn listed(alloc: Global, vars: u64, below: u64) -> Result<Vec<u64>, Memory>
    ensures { IfOk result (λ all. All (λ x. x < vars) all.items) }
{
    let mut all = Vec::new(alloc);
    for number in 0..vars {
        if number < below {
            all.push(number)?;
        }
    }
    Ok(all)
}

/// Whether the answer is right, as far as the test can see.
fn is_right<'a>(store: &ClauseStore<'a>, answer: &Answer, budget: usize) -> bool {
    match answer {
        Answer::Model(values) => satisfies(store, values_of(values.as_slice())),
        Answer::Refuted(lines) => ends_empty(lines)
            && all_follow(store, lines)
            && !has_model(store),
        Answer::Spent(lines) => lines.len() == budget && all_follow(store, lines),
    }
}

#[test]
fn answers_agree_with_all_assignments(rt: HostRuntime) -> Result<(), Fail> {
    for seed in 0..30 {
        let arena = Bump::new(rt.alloc());
        let mut store = ClauseStore::new(rt.alloc(), &arena);
        add_random(rt.alloc(), &mut store, seed, 35 + seed)?;
        let first = listed(rt.alloc(), store.vars(), seed)?;
        let solver = Solver::new(rt.alloc(), &store, first.as_slice())?;
        let answer = solver.solve(rt.alloc(), 1000)?;
        assert!(rt; is_right(&store, &answer, 1000));
    }
    Ok(())
}

#[test]
fn pigeons_find_no_holes(rt: HostRuntime) -> Result<(), Fail> {
    let arena = Bump::new(rt.alloc());
    let mut store = ClauseStore::new(rt.alloc(), &arena);
    add_pigeons(rt.alloc(), &mut store)?;
    let solver = Solver::new(rt.alloc(), &store, &[])?;
    let answer = solver.solve(rt.alloc(), 1000)?;
    assert!(rt; is_right(&store, &answer, 0));
    match answer {
        Answer::Refuted(_) => {}
        Answer::Spent(_) => assert!(rt; false),
        Answer::Model(_) => assert!(rt; false),
    }
    Ok(())
}

#[test]
fn a_small_budget_is_spent(rt: HostRuntime) -> Result<(), Fail> {
    let arena = Bump::new(rt.alloc());
    let mut store = ClauseStore::new(rt.alloc(), &arena);
    add_pigeons(rt.alloc(), &mut store)?;
    let solver = Solver::new(rt.alloc(), &store, &[])?;
    let answer = solver.solve(rt.alloc(), 2)?;
    assert!(rt; is_right(&store, &answer, 2));
    match answer {
        Answer::Spent(_) => {}
        Answer::Refuted(_) => assert!(rt; false),
        Answer::Model(_) => assert!(rt; false),
    }
    Ok(())
}
