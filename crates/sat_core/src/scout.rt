//! A search over all variables, whose lines are no part of any derivation.
ghost use Rattle.std.specs.Prelude.{◌≡◌, ◌<◌, ℕ, All, Contains, IfOk, IfSome, length};
ghost use Rattle.clause_store.specs.Literals.{Satisfies};
ghost use Rattle.sat_core.specs.Lines.{value_at};
ghost use Rattle.sat_core.specs.Marks.{IsMarked};
ghost use Rattle.sat_core.specs.Searching.{IsFoundBy, MarksFirst};

use crate::hints::Hints;
use crate::search::{Turn, search};
use clause_store::Memory;
use clause_store::derivation::Derivation;
use clause_store::store::ClauseStore;
use std::alloc::Global;

/// What is kept between turns: guesses, and whether the clauses were refuted. Nothing is owed of the scout's lines, so
/// they are thrown away after each turn.
#[derive(Drop)]
pub struct Scout {
    hints: Hints,
    ended: bool,
}

impl Scout {
    /// At its start. Where every variable is marked, the search is one over all variables itself, and has no scout.
    pub fn new(alloc: Global, is_first: &[bool]) -> Result<Scout, Memory> {
        let hints = Hints::new(alloc, is_first.len())?;
        let ended = is_first.iter().all(|marked| *marked);
        Ok(Scout { hints, ended })
    }

    /// Whether it has nothing left to do.
    pub fn has_ended(&self) -> bool {
        self.ended
    }

    /// Searches for so many lines; values that satisfy the clauses, if it finds some.
    pub fn look_ahead<'a>(
        &mut self,
        alloc: Global,
        clauses: &ClauseStore<'a>,
        turn: u64,
    ) -> Result<Option<Vec<bool>>, Memory>
        ensures { IfOk result (λ values. IfSome values (λ v. IsFoundBy clauses.now v.items)) }
    {
        if self.ended {
            return Ok(None);
        }
        let all = all_below(alloc, clauses.vars())?;
        let marks = marks_of(alloc, all.as_slice(), clauses.vars() as usize)?;
        let budget = turn.saturating_add(1);
        let lines = Derivation::new(alloc);
        match search(
            alloc,
            clauses,
            all.as_slice(),
            marks.as_slice(),
            &mut self.hints,
            lines,
            budget,
            budget,
        )? {
            Turn::Found(values) => Ok(Some(values)),
            // The clauses can't be satisfied: the search goes on alone.
            Turn::Closed(_) => {
                self.ended = true;
                Ok(None)
            }
            Turn::Ended(_) => Ok(None),
            Turn::Paused(_) => Ok(None),
        }
    }
}

/// The numbers below this one.
fn all_below(alloc: Global, count: u64) -> Result<Vec<u64>, Memory>
    ensures { IfOk result (λ all. All (λ x. x < count) all.items) }
{
    let mut all = Vec::new(alloc);
    for number in 0..count {
        all.push(number)?;
    }
    Ok(all)
}

/// Marks on the listed variables.
pub fn marks_of(alloc: Global, listed: &[u64], vars: usize) -> Result<Vec<bool>, Memory>
    requires { All (λ x. x < vars) listed.now }
    ensures { IfOk result (λ marks. MarksFirst marks.items listed.now) }
{
    let mut marks = vec![in alloc; false; vars]?;
    for var in listed {
        marks[*var as usize] = true;
    }
    Ok(marks)
}
