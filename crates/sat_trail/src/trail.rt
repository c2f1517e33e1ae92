ghost use Rattle.std.specs.Prelude.{◌≡◌, ◌*◌, ◌+◌, ◌-◌, ◌<◌, ◌≤◌, ◌^◌, Some, [], length, take, slice_get, slice_set, IfOk, OnOk, OnErr};
ghost use Rattle.clause_store.specs.Literals.{opposite};
ghost use Rattle.clause_store.specs.UnitRule.{LeavesOpen};
ghost use Rattle.sat_trail.specs.Packing.{place_of};
ghost use Rattle.sat_trail.specs.Paths.{IsPath, IsTruth, value_in, with_step};

use crate::packed::Packed;
use crate::step::Step;
use crate::truth::Truth;
use clause_store::Memory;
use std::alloc::Global;
use std::marker::Model;

/// The steps so far, each of a literal that was open before, seen by contracts as the number of variables and the
/// list of the steps. A literal's truth is read without a look at the steps.
#[derive(Drop)]
pub struct Trail {
    vars: usize,
    // Two entries for each variable, so that a test reads one byte and knows no sign.
    truths: Vec<Truth>,
    steps: Vec<Step>,
}

impl Model for Trail {
    ghost use Rattle.sat_trail.specs.Paths.{Path, IsTrail};

    ghost Value = { Path };

    ghost view = { λ t. record { vars = t.vars; steps = t.steps.items } };

    ghost invariant = { λ t. IsTrail t.vars t.truths.items t.steps.items };
}

impl Trail {
    /// No step.
    pub fn new(alloc: Global, vars: usize) -> Result<Trail, Memory>
        requires { vars < 2 ^ 31 }
        ensures { IfOk result (λ trail. trail ≡ record { vars = vars; steps = [] }) }
    {
        let truths = vec![in alloc; Truth::Open; 2 * vars]?;
        Ok(Trail {
            vars,
            truths,
            steps: Vec::new(alloc),
        })
    }

    /// The number of steps.
    pub fn len(&self) -> usize
        ensures length { result ≡ length self.now.steps }
        ensures path { IsPath self.now }
    {
        self.steps.len()
    }

    /// The step of a number, from 0.
    pub fn step(&self, at: usize) -> Step
        requires { at < length self.now.steps }
        ensures { slice_get self.now.steps at ≡ Some result }
    {
        self.steps[at]
    }

    /// What the steps say of a literal.
    pub fn truth(&self, lit: Packed) -> Truth
        requires { lit.var < self.now.vars }
        ensures { IsTruth (value_in self.now.steps) lit result }
    {
        self.truths[lit.place()]
    }

    /// Makes an open literal true; want of memory leaves the steps as they were.
    pub fn push(&mut self, lit: Packed, reason: Option<u32>) -> Result<(), Memory>
        requires known { lit.var < self.old.vars }
        requires still_open { LeavesOpen (value_in self.old.steps) lit }
        ensures ok { OnOk result (self.new ≡ with_step self.old lit reason) }
        ensures err { OnErr result (self.new ≡ self.old) }
    {
        self.steps.push(Step { lit, reason })?;
        mark(&mut self.truths, lit, Truth::True, Truth::False);
        Ok(())
    }

    /// Takes all steps but the first ones back.
    pub fn undo(&mut self, to: usize)
        requires { to ≤ length self.old.steps }
        ensures { self.new ≡ record self.old { steps = take to self.old.steps } }
    {
        while to < self.len() {
            self.take_back();
        }
    }

    /// Takes the last step back.
    fn take_back(&mut self)
        requires { 0 < length self.old.steps }
        ensures { self.new ≡ record self.old { steps = take (length self.old.steps - 1) self.old.steps } }
    {
        if let Some(step) = self.steps.pop() {
            mark(&mut self.truths, step.lit, Truth::Open, Truth::Open);
        }
    }
}

/// Writes what is known of a literal, and of its opposite.
fn mark(truths: &mut Vec<Truth>, lit: Packed, here: Truth, there: Truth)
    requires { 2 * lit.var + 1 < length truths.old.items }
    ensures { truths.new.items ≡ slice_set (slice_set truths.old.items (place_of lit) here) (place_of (opposite lit)) there }
{
    truths[lit.place()] = here;
    truths[lit.opposite().place()] = there;
}
