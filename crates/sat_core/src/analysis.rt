//! From a false clause to a line: down the steps, a literal of the line for each marked step that is kept.
ghost use Rattle.std.specs.Prelude.{◌≡◌, ◌<◌, ◌≤◌, ◌+◌, [], length, IfOk, IfSome};
ghost use Rattle.sat_trail.specs.Paths.{value_in};
ghost use Rattle.sat_trail.specs.Visits.{IsFalseClause};
ghost use Rattle.sat_core.specs.Analyses.{IsAnalysed, IsBelow, IsChoice, IsCut, IsFoundCut, IsGathered, IsKept, IsLearned, IsLeft, IsLiteralAt, IsLowered};

use crate::hints::Hints;
use crate::marks::{is_marked, mark_all, quiet_below};
use clause_store::Memory;
use sat_trail::engine::Engine;
use sat_trail::packed::Packed;
use std::alloc::Global;

/// What is done about a step at or above the last decision.
#[derive(Clone, Copy, Debug)]
pub enum Choice {
    /// It isn't marked.
    Skip,
    /// The variables of the clause that forced it are marked in its place.
    Expand { clause: u32 },
    /// No other step from a decision on is marked: its opposite is the key of the line.
    Key { decision: usize },
}

/// What is done about a step below the key.
#[derive(Clone, Copy, Debug)]
pub enum Below {
    /// It isn't marked.
    Pass,
    /// The variables of the clause that forced it are marked in its place.
    Widen { clause: u32 },
    /// Its opposite is a literal of the line.
    Keep,
}

/// The place of the key, and of a decision at or below it.
#[derive(Clone, Copy, Debug)]
pub struct Cut {
    pub key: usize,
    pub decision: usize,
}

/// The decision that a line goes back to, and the place of its highest literal beside the key.
#[derive(Clone, Copy, Debug)]
pub struct Jump {
    pub to: usize,
    pub top: Option<usize>,
}

/// A line, its key, a second literal to watch, and the decision to go back to.
#[derive(Drop)]
pub struct Learned {
    pub line: Vec<Packed>,
    pub key: Packed,
    pub second: Packed,
    pub to: usize,
}

/// A line that follows from the clauses by way of a false one; none where nothing makes all of them true. The line
/// says of its variables what the steps below the jump say, turned round, but for the key.
pub fn analyse(
    alloc: Global,
    engine: &Engine,
    clash: u32,
    is_first: &[bool],
    hints: &Hints,
) -> Result<Option<Learned>, Memory>
    requires { IsFalseClause engine.now.clauses (value_in engine.now.steps) clash }
    ensures { IfOk result (λ learned. IsAnalysed engine.now is_first.now learned) }
{
    let mut marks = vec![in alloc; false; engine.vars()]?;
    mark_all(&mut marks, engine.clause(clash as usize));
    let Some(cut) = find_cut(engine, is_first, &mut marks) else {
        return Ok(None);
    };
    let learned = gather(alloc, engine, hints, is_first, &mut marks, cut)?;
    Ok(Some(learned))
}

/// Goes down the steps until one alone stands for all that are marked from a decision on.
fn find_cut(engine: &Engine, is_first: &[bool], marks: &mut Vec<bool>) -> Option<Cut>
    requires sized { length marks.old.items ≡ engine.now.vars }
    requires left { IsLeft engine.now.clauses engine.now.steps marks.old.items (length engine.now.steps) [] }
    ensures found { IsFoundCut engine.now is_first.now marks.new.items result }
    ensures sized { length marks.new.items ≡ engine.now.vars }
{
    let mut at = engine.len();
    while at > 0 {
        let place = at - 1;
        match choose(engine, is_first, marks, place) {
            Choice::Skip => at = place,
            Choice::Expand { clause } => {
                mark_all(marks, engine.clause(clause as usize));
                at = place;
            }
            Choice::Key { decision } => return Some(Cut {
                key: place,
                decision,
            }),
        }
    }
    None
}

/// What is done about the step at a place, if all higher ones are done with.
fn choose(engine: &Engine, is_first: &[bool], marks: &[bool], place: usize) -> Choice
    requires { place < length engine.now.steps }
    ensures { IsChoice engine.now is_first.now marks.now place result }
{
    let step = engine.step(place);
    if !is_marked(marks, step.lit) {
        return Choice::Skip;
    }
    let Some(clause) = step.reason else {
        return Choice::Key { decision: place };
    };
    if is_marked(is_first, step.lit) {
        if let Some(decision) = quiet_below(engine, marks, place) {
            return Choice::Key { decision };
        }
    }
    let _steps = engine.len();
    Choice::Expand { clause }
}

/// Goes down the steps below a cut, and gathers the rest of the line.
fn gather(
    alloc: Global,
    engine: &Engine,
    hints: &Hints,
    is_first: &[bool],
    marks: &mut Vec<bool>,
    cut: Cut,
) -> Result<Learned, Memory>
    requires sized { length marks.old.items ≡ engine.now.vars }
    requires cut { IsCut engine.now is_first.now marks.old.items cut }
    ensures { IfOk result (λ learned. IsLearned engine.now is_first.now learned.line.items learned.key learned.second learned.to) }
{
    let _steps = engine.len();
    let key = engine.step(cut.key).lit.opposite();
    let mut line = Vec::new(alloc);
    line.push(key)?;
    let mut jump = Jump {
        to: cut.decision,
        top: None,
    };
    let mut at = cut.decision;
    while at > 0 {
        let place = at - 1;
        jump = gather_step(
            engine, hints, is_first, marks, &mut line, cut.key, place, jump,
        )?;
        at = place;
    }
    let second = literal_at(engine, key, jump.top);
    Ok(Learned {
        line,
        key,
        second,
        to: jump.to,
    })
}

/// Does the step at a place below the key.
fn gather_step(
    engine: &Engine,
    hints: &Hints,
    is_first: &[bool],
    marks: &mut Vec<bool>,
    line: &mut Vec<Packed>,
    key: usize,
    place: usize,
    jump: Jump,
) -> Result<Jump, Memory>
    requires sized { length marks.old.items ≡ engine.now.vars }
    requires gathered { IsGathered engine.now is_first.now marks.old.items key (place + 1) line.old.items jump }
    ensures gathered { IfOk result (λ next. IsGathered engine.now is_first.now marks.new.items key place line.new.items next) }
    ensures sized { IfOk result (λ _. length marks.new.items ≡ engine.now.vars) }
{
    let _steps = engine.len();
    match choose_below(engine, hints, is_first, marks, place) {
        Below::Pass => Ok(lowered(engine, place, jump)),
        Below::Widen { clause } => {
            mark_all(marks, engine.clause(clause as usize));
            Ok(jump)
        }
        Below::Keep => {
            line.push(engine.step(place).lit.opposite())?;
            Ok(kept(place, jump))
        }
    }
}

/// What is done about the step at a place below the key. A forced step may always be widened: so which of those
/// that lines may name are worth keeping is left to the hints, and nothing is asked of them.
fn choose_below(
    engine: &Engine,
    hints: &Hints,
    is_first: &[bool],
    marks: &[bool],
    place: usize,
) -> Below
    requires { place < length engine.now.steps }
    ensures { IsBelow engine.now is_first.now marks.now place result }
{
    let step = engine.step(place);
    if !is_marked(marks, step.lit) {
        return Below::Pass;
    }
    let Some(clause) = step.reason else {
        return Below::Keep;
    };
    if is_marked(is_first, step.lit) && !hints.is_dropped(step.lit) {
        return Below::Keep;
    }
    let _steps = engine.len();
    Below::Widen { clause }
}

/// While the line is its key alone, it goes back to each lower decision that it doesn't name.
fn lowered(engine: &Engine, place: usize, jump: Jump) -> Jump
    requires { place < length engine.now.steps }
    ensures { IsLowered engine.now.steps place jump result }
{
    let step = engine.step(place);
    if jump.top.is_none() && step.reason.is_none() {
        Jump {
            to: place,
            top: None,
        }
    } else {
        jump
    }
}

/// The first literal beside the key is the highest.
fn kept(place: usize, jump: Jump) -> Jump
    ensures { IsKept place jump result }
{
    match jump.top {
        Some(_) => jump,
        None => Jump {
            to: jump.to,
            top: Some(place),
        },
    }
}

/// The line's literal of the step at a place, or its key.
fn literal_at(engine: &Engine, key: Packed, place: Option<usize>) -> Packed
    requires { IfSome place (λ at. at < length engine.now.steps) }
    ensures { IsLiteralAt engine.now.steps key place result }
{
    match place {
        Some(at) => engine.step(at).lit.opposite(),
        None => key,
    }
}
