//! The unit rule over clauses that may grow and steps that may be taken back.
ghost use Rattle.std.specs.Prelude.{◌≡◌, ◌<◌, ◌≤◌, ◌^◌, Some, None, length, slice_get, IfOk};
ghost use Rattle.clause_store.specs.Formula.{IsKnown};
ghost use Rattle.clause_store.specs.UnitRule.{LeavesOpen};
ghost use Rattle.sat_trail.specs.Paths.{IsPath, IsTruth, IsWalk, IsDecision, value_in};
ghost use Rattle.sat_trail.specs.Watching.{IsIndexed};
ghost use Rattle.sat_trail.specs.Engines.{CanOpen, CanUnit, IsLoading, IsLoaded, IsPropagated, IsPut, path_of, with_decision, with_front, with_line, with_unit};

use crate::index::Index;
use crate::packed::Packed;
use crate::propagate::visit_rows;
use crate::step::Step;
use crate::trail::Trail;
use crate::truth::Truth;
use crate::watcher::Pair;
use clause_store::Memory;
use std::alloc::Global;
use std::marker::Model;

/// Clauses and steps, seen by contracts as their lists; what the clauses watch isn't seen.
#[derive(Drop)]
pub struct Engine {
    trail: Trail,
    index: Index,
    next: usize,
}

impl Model for Engine {
    ghost use Rattle.sat_trail.specs.Engines.{State};
    ghost use Rattle.sat_trail.specs.Visits.{IsEngine};

    ghost Value = { State };

    ghost view = { λ e. record { vars = e.trail.vars; clauses = e.index.clauses; steps = e.trail.steps; next = e.next } };

    ghost invariant = { λ e. IsEngine e.trail e.index e.next };
}

impl Engine {
    /// The clauses of an index, with those of one literal made true; none where two of these are opposites.
    pub fn start(alloc: Global, index: Index) -> Result<Option<Engine>, Memory>
        ensures { IfOk result (λ engine. IsLoaded index.vars index.clauses engine) }
    {
        let count = index.len();
        let mut trail = Trail::new(alloc, index.vars())?;
        for at in 0..count {
            if !put_alone(&mut trail, &index, at)? {
                return Ok(None);
            }
        }
        Ok(Some(Engine {
            trail,
            index,
            next: 0,
        }))
    }

    /// The number of variables.
    pub fn vars(&self) -> usize
        ensures number { result ≡ self.now.vars }
        ensures fits { result < 2 ^ 31 }
    {
        let _clauses = self.index.len();
        self.index.vars()
    }

    /// The number of steps.
    pub fn len(&self) -> usize
        ensures number { result ≡ length self.now.steps }
        ensures path { IsPath (path_of self.now) }
        ensures walk { IsWalk self.now.clauses self.now.steps }
    {
        self.trail.len()
    }

    /// The step of a number, from 0.
    pub fn step(&self, at: usize) -> Step
        requires { at < length self.now.steps }
        ensures { slice_get self.now.steps at ≡ Some result }
    {
        self.trail.step(at)
    }

    /// What the steps say of a literal.
    pub fn truth(&self, lit: Packed) -> Truth
        requires { lit.var < self.now.vars }
        ensures { IsTruth (value_in self.now.steps) lit result }
    {
        self.trail.truth(lit)
    }

    /// The literals of a clause.
    pub fn clause(&self, at: usize) -> &[Packed]
        requires { at < length self.now.clauses }
        ensures clause { slice_get self.now.clauses at ≡ Some result.now }
        ensures known { IsKnown self.now.vars result.now }
    {
        self.index.clause(at)
    }

    /// Applies the rule until it has nothing left to do, or a clause is false, whose number is given.
    pub fn propagate(self) -> Result<(Engine, Option<u32>), Memory>
        ensures { IfOk result (λ ended. IsPropagated self ended.0 ended.1) }
    {
        let Engine {
            mut trail,
            mut index,
            next,
        } = self;
        let ran = visit_rows(&mut trail, &mut index, next)?;
        let _clauses = index.len();
        let engine = Engine {
            trail,
            index,
            next: ran.next,
        };
        Ok((engine, ran.clash))
    }

    /// Makes an open literal true where the rule has nothing to do.
    pub fn decide(self, lit: Packed) -> Result<Engine, Memory>
        requires known { lit.var < self.vars }
        requires still_open { LeavesOpen (value_in self.steps) lit }
        requires settled { self.next ≡ length self.steps }
        ensures { IfOk result (λ engine. engine ≡ with_decision self lit) }
    {
        let Engine {
            mut trail,
            index,
            next,
        } = self;
        let _clauses = index.len();
        trail.push(lit, None)?;
        Ok(Engine { trail, index, next })
    }

    /// Takes a decision back, with all later steps.
    pub fn undo(self, to: usize) -> Engine
        requires { IsDecision self.steps to }
        ensures { result ≡ with_front self to }
    {
        let Engine {
            mut trail,
            index,
            next: _,
        } = self;
        trail.undo(to);
        Engine {
            trail,
            index,
            next: to,
        }
    }

    /// Adds a clause of which two literals that differ are open.
    pub fn learn_open(self, line: &[Packed], one: Packed, two: Packed) -> Result<Engine, Memory>
        requires known { IsKnown self.vars line.now }
        requires fits { CanOpen self.steps line.now one two }
        ensures { IfOk result (λ engine. engine ≡ with_line self line.now) }
    {
        let Engine { trail, index, next } = self;
        let _clauses = index.len();
        let index = index.add(line, one, two)?;
        Ok(Engine { trail, index, next })
    }

    /// Adds a clause with one literal that isn't false, which is made true.
    pub fn learn_unit(self, line: &[Packed], key: Packed, second: Packed) -> Result<Engine, Memory>
        requires known { IsKnown self.vars line.now }
        requires fits { CanUnit self.steps line.now key second }
        ensures { IfOk result (λ engine. engine ≡ with_unit self line.now key) }
    {
        let Engine {
            mut trail,
            index,
            next,
        } = self;
        let number = index.len();
        let index = index.add(line, key, second)?;
        trail.push(key, Some(number as u32))?;
        Ok(Engine { trail, index, next })
    }
}

/// Makes the literal of a clause true that has no other; false where it is false already.
fn put_alone(trail: &mut Trail, index: &Index, at: usize) -> Result<bool, Memory>
    requires loading { IsLoading trail.old index.now at }
    requires below { at < length index.now.clauses }
    ensures { IfOk result (λ good. IsPut trail.new index.now at good) }
{
    let _clauses = index.len();
    let Pair { one, two } = index.pair(at);
    if !one.is(two) {
        return Ok(true);
    }
    match trail.truth(one) {
        Truth::True => Ok(true),
        Truth::False => Ok(false),
        Truth::Open => {
            trail.push(one, Some(at as u32))?;
            Ok(true)
        }
    }
}
