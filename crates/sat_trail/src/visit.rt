//! What the unit rule has to do about one clause that watches a literal which became false.
ghost use Rattle.std.specs.Prelude.{◌≡◌, ◌<◌, length};
ghost use Rattle.clause_store.specs.Formula.{IsKnown};
ghost use Rattle.clause_store.specs.UnitRule.{MakesFalse};
ghost use Rattle.sat_trail.specs.Paths.{value_in};
ghost use Rattle.sat_trail.specs.Watching.{CanMove, row_of};
ghost use Rattle.sat_trail.specs.Visits.{IsFound, IsOther, IsVisit, MayWatch};

use crate::index::Index;
use crate::packed::Packed;
use crate::trail::Trail;
use crate::truth::Truth;
use crate::watcher::Pair;

/// What is to be done about a clause.
#[derive(Clone, Copy, Debug)]
pub enum Visit {
    /// Nothing.
    Keep,
    /// It is true by this literal, which the next visit is to look at first.
    Block {
        clause: u32,
        blocker: Packed,
    },
    /// It watches another literal from now on.
    Move {
        clause: u32,
        stay: Packed,
        to: Packed,
    },
    /// It is false.
    Clash {
        clause: u32,
    },
    /// Its last open literal is made true.
    Push {
        clause: u32,
        lit: Packed,
    },
}

/// Looks at a watcher in the row of a literal that is false.
pub fn look_at(trail: &Trail, index: &Index, from: Packed, at: usize) -> Visit
    requires vars { trail.now.vars ≡ index.now.vars }
    requires known { from.var < index.now.vars }
    requires within { at < length (row_of index.now from) }
    requires is_false { MakesFalse (value_in trail.now.steps) from }
    ensures { IsVisit index.now (value_in trail.now.steps) from at result }
{
    let watcher = index.watcher(from, at);
    // Most clauses are done with here, at the cost of one byte read.
    if let Truth::True = trail.truth(watcher.blocker) {
        return Visit::Keep;
    }
    let clause = watcher.clause;
    let pair = index.pair(clause as usize);
    let Some(stay) = other_of(pair, from) else {
        return Visit::Keep;
    };
    match trail.truth(stay) {
        Truth::True => Visit::Block {
            clause,
            blocker: stay,
        },
        Truth::Open => match find_watch(trail, index.clause(clause as usize), stay) {
            Some(to) => block_or_move(trail, index, from, at, clause, stay, to),
            None => Visit::Push { clause, lit: stay },
        },
        Truth::False => match find_watch(trail, index.clause(clause as usize), stay) {
            Some(to) => block_or_move(trail, index, from, at, clause, stay, to),
            None => Visit::Clash { clause },
        },
    }
}

/// What is to be done about a clause with a third literal that isn't false. Where that is true, the clause goes on to
/// watch what it watched: steps are taken back before the watched literal is open again.
fn block_or_move(
    trail: &Trail,
    index: &Index,
    from: Packed,
    at: usize,
    clause: u32,
    stay: Packed,
    to: Packed,
) -> Visit
    requires vars { trail.now.vars ≡ index.now.vars }
    requires known { from.var < index.now.vars }
    requires can { CanMove index.now from at clause stay to }
    requires free { MakesFalse (value_in trail.now.steps) to → ⊥ }
    ensures { IsVisit index.now (value_in trail.now.steps) from at result }
{
    let _clauses = index.len();
    match trail.truth(to) {
        Truth::True => Visit::Block {
            clause,
            blocker: to,
        },
        Truth::Open => Visit::Move { clause, stay, to },
        Truth::False => Visit::Move { clause, stay, to },
    }
}

/// The other literal of a pair, if one of the two is the given one.
fn other_of(pair: Pair, from: Packed) -> Option<Packed>
    ensures { IsOther pair from result }
{
    let Pair { one, two } = pair;
    if one.is(from) {
        Some(two)
    } else if two.is(from) {
        Some(one)
    } else {
        None
    }
}

/// A literal of a clause that isn't false, beside the one that stays.
fn find_watch(trail: &Trail, clause: &[Packed], stay: Packed) -> Option<Packed>
    requires { IsKnown trail.now.vars clause.now }
    ensures { IsFound (value_in trail.now.steps) clause.now stay result }
{
    for lit in clause {
        if may_watch(trail, *lit, stay) {
            return Some(*lit);
        }
    }
    None
}

/// Whether a literal isn't false, and isn't the one that stays.
fn may_watch(trail: &Trail, lit: Packed, stay: Packed) -> bool
    requires { lit.var < trail.now.vars }
    ensures { MayWatch (value_in trail.now.steps) lit stay result }
{
    match trail.truth(lit) {
        Truth::False => false,
        Truth::Open => !lit.is(stay),
        Truth::True => !lit.is(stay),
    }
}
