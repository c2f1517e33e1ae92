//! Which literal is decided next: of the hottest variable of the list that is open, else of any that is open.
ghost use Rattle.std.specs.Prelude.{◌≡◌, ◌≤◌, ◌<◌, ℕ, All, Contains, IsSome, IfSome, MatchOption};
ghost use Rattle.clause_store.specs.UnitRule.{LeavesOpen};
ghost use Rattle.sat_trail.specs.Paths.{value_in};
ghost use Rattle.sat_core.specs.Marks.{IsMarked};
ghost use Rattle.sat_core.specs.Searching.{FirstDecided, IsOpenAt, IsPicked, MarksFirst};

use crate::hints::Hints;
use crate::marks::is_marked;
use clause_store::lit::Lit;
use sat_trail::engine::Engine;
use sat_trail::packed::Packed;
use sat_trail::truth::Truth;

/// An open literal; none where all variables are decided.
pub fn pick(engine: &Engine, hints: &mut Hints, first: &[u64], is_first: &[bool]) -> Option<Packed>
    requires known { All (λ x. x < engine.now.vars) first.now }
    requires marks { MarksFirst is_first.now first.now }
    ensures { IsPicked engine.now first.now result }
{
    // The hints are only a guess at it: what is left open is looked for in the list itself.
    if let Some(lit) = pick_hot(engine, hints, is_first) {
        return Some(lit);
    }
    if let Some(lit) = pick_first(engine, hints, first) {
        return Some(lit);
    }
    pick_any(engine, hints)
}

/// An open literal of a marked variable that the hints give.
fn pick_hot(engine: &Engine, hints: &mut Hints, is_first: &[bool]) -> Option<Packed>
    ensures { IfSome result (λ l. (l.var < engine.now.vars) × LeavesOpen (value_in engine.now.steps) l × IsMarked is_first.now l.var) }
{
    for _try in 0..engine.vars() {
        let var = hints.next_hot()?;
        if var < engine.vars() {
            if let Some(lit) = open_at(engine, hints, var) {
                if is_marked(is_first, lit) {
                    return Some(lit);
                }
            }
        }
    }
    None
}

/// An open literal of a listed variable; none where all of them are decided.
fn pick_first(engine: &Engine, hints: &Hints, first: &[u64]) -> Option<Packed>
    requires { All (λ x. x < engine.now.vars) first.now }
    ensures { MatchOption result (FirstDecided engine.now.steps first.now) (λ l. (l.var < engine.now.vars) × LeavesOpen (value_in engine.now.steps) l × Contains first.now l.var) }
{
    for var in first {
        if let Some(lit) = open_at(engine, hints, *var as usize) {
            return Some(lit);
        }
    }
    None
}

/// An open literal of any variable; none where all are decided.
fn pick_any(engine: &Engine, hints: &mut Hints) -> Option<Packed>
    ensures { MatchOption result ((x : ℕ) → x < engine.now.vars → IsSome (value_in engine.now.steps x)) (λ l. (l.var < engine.now.vars) × LeavesOpen (value_in engine.now.steps) l) }
{
    if let Some(lit) = pick_from(engine, hints, hints.cursor()) {
        hints.set_cursor(lit.var());
        return Some(lit);
    }
    pick_from(engine, hints, 0)
}

/// An open literal of a variable from one on; none where all these are decided.
fn pick_from(engine: &Engine, hints: &Hints, from: usize) -> Option<Packed>
    ensures { MatchOption result ((x : ℕ) → from ≤ x → x < engine.now.vars → IsSome (value_in engine.now.steps x)) (λ l. (l.var < engine.now.vars) × LeavesOpen (value_in engine.now.steps) l) }
{
    for var in from..engine.vars() {
        if let Some(lit) = open_at(engine, hints, var) {
            return Some(lit);
        }
    }
    None
}

/// The literal of a variable that the hints prefer; none where it is decided.
fn open_at(engine: &Engine, hints: &Hints, var: usize) -> Option<Packed>
    requires { var < engine.now.vars }
    ensures { IsOpenAt engine.now var result }
{
    let _vars = engine.vars();
    let lit = Packed::new(Lit {
        var: var as u64,
        positive: hints.prefers(var),
    });
    match engine.truth(lit) {
        Truth::Open => Some(lit),
        Truth::True => None,
        Truth::False => None,
    }
}
