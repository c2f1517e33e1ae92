//! The search by turns.
ghost use Rattle.std.specs.Prelude.{◌≡◌, ◌≤◌, ◌<◌, All, IfOk};
ghost use Rattle.sat_core.specs.Searching.{IsAnswer, IsSoFar, MarksFirst};

use crate::answer::{Answer, Assignment};
use crate::hints::Hints;
use crate::scout::{Scout, marks_of};
use crate::search::{Turn, search};
use clause_store::Memory;
use clause_store::derivation::Derivation;
use clause_store::store::ClauseStore;
use std::alloc::Global;
use std::marker::Model;

/// Lines until the first pause; each later turn is twice as long.
const FIRST_TURN: u64 = 300;

/// Clauses to be satisfied or refuted, and the variables that are decided before all others.
#[derive(Drop)]
pub struct Solver<'s, 'a> {
    clauses: &'s ClauseStore<'a>,
    first: Vec<u64>,
}

impl<'s, 'a> Model for Solver<'s, 'a> {
    ghost use Rattle.std.specs.Prelude.{All, ◌<◌};
    ghost use Rattle.sat_core.specs.Searching.{Task};

    ghost Value = { Task };

    ghost view = { λ s. record { formula = s.clauses.now; first = s.first.items } };

    ghost invariant = { λ s. All (λ x. x < s.clauses.now.vars) s.first.items };
}

impl<'s, 'a> Solver<'s, 'a> {
    /// A search that decides these variables before all others.
    pub fn new(
        alloc: Global,
        clauses: &'s ClauseStore<'a>,
        first: &[u64],
    ) -> Result<Solver<'s, 'a>, Memory>
        requires { All (λ x. x < clauses.now.vars) first.now }
        ensures { IfOk result (λ solver. solver ≡ record { formula = clauses.entry.now; first = first.now }) }
    {
        let first = first.to_vec(alloc)?;
        Ok(Solver { clauses, first })
    }

    /// Looks for an assignment that satisfies the clauses, or derives the empty line as the budget's last line at the
    /// latest; it ends with exactly as many lines as the budget where neither was found, none of them empty.
    /// Two searches take turns: one whose lines are the derivation, and one over all variables, which often finds an
    /// assignment sooner, and whose lines are thrown away. Each turn is bounded, so the answer depends on nothing else.
    pub fn solve(self, alloc: Global, budget: u64) -> Result<Answer, Memory>
        requires { 1 ≤ budget }
        ensures { IfOk result (λ answer. IsAnswer self.entry.formula self.entry.first budget answer) }
    {
        let Solver { clauses, first } = self;
        take_turns(alloc, clauses, first.as_slice(), budget)
    }
}

/// The two searches by turns.
fn take_turns<'a>(
    alloc: Global,
    clauses: &ClauseStore<'a>,
    first: &[u64],
    budget: u64,
) -> Result<Answer, Memory>
    requires positive { 1 ≤ budget }
    requires known { All (λ x. x < clauses.now.vars) first.now }
    ensures { IfOk result (λ answer. IsAnswer clauses.now first.now budget answer) }
{
    let vars = clauses.vars() as usize;
    let marks = marks_of(alloc, first, vars)?;
    let is_first = marks.as_slice();
    let mut hints = Hints::new(alloc, vars)?;
    let mut scout = Scout::new(alloc, is_first)?;
    let mut lines = Derivation::new(alloc);
    let mut turn = FIRST_TURN;
    loop {
        let pause = pause_after(&lines, turn, &scout, budget);
        match search(
            alloc, clauses, first, is_first, &mut hints, lines, budget, pause,
        )? {
            Turn::Found(values) => return Ok(Answer::Model(Assignment::of(values))),
            Turn::Closed(closed) => return Ok(Answer::Refuted(closed)),
            Turn::Ended(ended) => return Ok(Answer::Spent(ended)),
            Turn::Paused(more) => {
                if let Some(values) = scout.look_ahead(alloc, clauses, turn)? {
                    return Ok(Answer::Model(Assignment::of(values)));
                }
                lines = more;
                turn = turn.saturating_mul(2);
            }
        }
    }
}

/// With how many lines the next pause is due: none before the budget where there is nobody to take turns with.
fn pause_after(lines: &Derivation, turn: u64, scout: &Scout, budget: u64) -> u64 {
    if scout.has_ended() {
        budget
    } else {
        (lines.len() as u64).saturating_add(turn)
    }
}
