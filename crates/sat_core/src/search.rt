//! The loop of the search: down to a false clause, from it to a line, and back to where the line says something new.
ghost use Rattle.std.specs.Prelude.{◌≡◌, ◌≤◌, ◌<◌, ◌++◌, ◌∷◌, [], All, IfOk};
ghost use Rattle.sat_core.specs.Searching.{IsSoFar, IsTurn, MarksFirst};

use crate::analysis::{Learned, analyse};
use crate::backjump::go_back;
use crate::descent::descend;
use crate::hints::Hints;
use crate::model::model_of;
use clause_store::Memory;
use clause_store::derivation::Derivation;
use clause_store::lit::Lit;
use clause_store::store::ClauseStore;
use sat_trail::load::load;
use sat_trail::packed::Packed;
use std::alloc::Global;

/// How a turn of the search ends.
#[derive(Drop)]
pub enum Turn {
    /// With values that satisfy every clause.
    Found(Vec<bool>),
    /// With the empty line.
    Closed(Derivation),
    /// With as many lines as the budget.
    Ended(Derivation),
    /// With more lines than before, when a pause was due.
    Paused(Derivation),
}

/// Goes on with a derivation until it has so many lines.
pub fn search<'a>(
    alloc: Global,
    clauses: &ClauseStore<'a>,
    first: &[u64],
    is_first: &[bool],
    hints: &mut Hints,
    lines: Derivation,
    budget: u64,
    pause: u64,
) -> Result<Turn, Memory>
    requires known { All (λ x. x < clauses.now.vars) first.now }
    requires marks { MarksFirst is_first.now first.now }
    requires so_far { IsSoFar clauses.now first.now budget lines }
    ensures { IfOk result (λ turn. IsTurn clauses.now first.now budget lines turn) }
{
    let _vars = clauses.vars();
    let mut lines = lines;
    let Some(engine) = load(alloc, clauses, &lines)? else {
        return close(lines);
    };
    hints.begin(is_first);
    let (mut engine, mut clash) = descend(engine, hints, first, is_first, clauses, &lines)?;
    while let Some(number) = clash {
        hints.study(&engine, number, is_first)?;
        let _steps = engine.len();
        let Some(learned) = analyse(alloc, &engine, number, is_first, hints)? else {
            return close(lines);
        };
        let Learned {
            line,
            key,
            second,
            to,
        } = learned;
        let unpacked = unpack(alloc, line.as_slice())?;
        lines.push(unpacked.as_slice())?;
        let count = lines.len() as u64;
        if count >= budget {
            return Ok(Turn::Ended(lines));
        }
        if count >= pause {
            return Ok(Turn::Paused(lines));
        }
        let back = go_back(engine, hints, is_first, line.as_slice(), key, second, to)?;
        let (next, found) = descend(back, hints, first, is_first, clauses, &lines)?;
        engine = next;
        clash = found;
    }
    let values = model_of(alloc, &engine)?;
    Ok(Turn::Found(values))
}

/// Ends a derivation by the empty line.
fn close(lines: Derivation) -> Result<Turn, Memory>
    ensures { IfOk result (λ turn. turn ≡ Turn.Closed (lines ++ [] ∷ [])) }
{
    let mut lines = lines;
    lines.push(&[])?;
    Ok(Turn::Closed(lines))
}

/// A line's literals.
fn unpack(alloc: Global, line: &[Packed]) -> Result<Vec<Lit>, Memory>
    ensures { IfOk result (λ lits. lits.items ≡ line.now) }
{
    let mut lits = Vec::new(alloc);
    for lit in line {
        lits.push(lit.lit())?;
    }
    Ok(lits)
}
