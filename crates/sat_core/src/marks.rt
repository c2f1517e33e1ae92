//! Marks on variables, and a look down the steps for the next marked one.
ghost use Rattle.std.specs.Prelude.{◌≡◌, ◌<◌, ◌≤◌, ◌↔◌, length, IsTrue};
ghost use Rattle.clause_store.specs.Formula.{IsKnown};
ghost use Rattle.sat_core.specs.Marks.{IsMarked, IsMarkedAll, IsQuiet};

use sat_trail::engine::Engine;
use sat_trail::packed::Packed;

/// Whether a literal's variable is marked.
pub fn is_marked(marks: &[bool], lit: Packed) -> bool
    ensures { IsTrue result ↔ IsMarked marks.now lit.var }
{
    match marks.get(lit.var()) {
        Some(marked) => *marked,
        None => false,
    }
}

/// Marks the variables of a clause.
pub fn mark_all(marks: &mut Vec<bool>, clause: &[Packed])
    requires { IsKnown (length marks.old.items) clause.now }
    ensures { IsMarkedAll marks.old.items marks.new.items clause.now }
{
    for lit in clause {
        marks[lit.var()] = true;
    }
}

/// The decision at or below a place, if no step from it up to the place is marked.
pub fn quiet_below(engine: &Engine, marks: &[bool], place: usize) -> Option<usize>
    requires { place ≤ length engine.now.steps }
    ensures { IsQuiet engine.now.steps marks.now place result }
{
    let mut at = place;
    while at > 0 {
        at -= 1;
        let step = engine.step(at);
        if is_marked(marks, step.lit) {
            return None;
        }
        if step.reason.is_none() {
            return Some(at);
        }
    }
    None
}
