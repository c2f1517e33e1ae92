ghost use Rattle.std.specs.Prelude.{◌≡◌, ◌+◌, ◌^◌, ◌<◌, ◌↔◌, [], ◌∷◌, ◌++◌, length, slice_get, IsTrue, is_ok, if◌then◌else◌};
ghost use Rattle.sched_text.specs.Runs.{steps_of_run};

use crate::run::Run;
use odr_list::memory::Memory;
use std::alloc::Global;
use std::marker::Model;

/// The number of the thread that takes each step, in order. A contract sees it as that list.
#[derive(Debug, Drop)]
pub struct Schedule {
    steps: Vec<u8>,
}

impl Model for Schedule {
    ghost use Rattle.std.specs.Prelude.{List, ℕ};

    ghost Value = { List ℕ };

    ghost view = { λ s. s.steps.items };
}

impl Schedule {
    /// No step. Takes no memory.
    pub fn new(alloc: Global) -> Schedule
        ensures { result ≡ [] }
    {
        Schedule {
            steps: Vec::new(alloc),
        }
    }

    /// The schedule of a vector of thread numbers. Takes no memory.
    pub fn of(steps: Vec<u8>) -> Schedule
        ensures { result ≡ steps.items }
    {
        Schedule { steps }
    }

    /// Appends a step of a thread; want of memory leaves the schedule as it was.
    pub fn push(&mut self, thread: u8) -> Result<(), Memory>
        ensures { self.new ≡ (if is_ok result then self.old ++ thread ∷ [] else self.old) }
    {
        self.steps.push(thread)?;
        Ok(())
    }

    /// Appends the steps of a run; want of memory leaves the schedule as it was.
    pub(crate) fn append(&mut self, run: Run) -> Result<(), Memory>
        requires { length self.old + run.count < 2 ^ 63 }
        ensures { self.new ≡ (if is_ok result then self.old ++ steps_of_run run else self.old) }
    {
        let length = self.steps.len() + run.count as usize;
        self.steps.resize(length, run.thread)?;
        Ok(())
    }

    /// The number of steps.
    pub fn len(&self) -> usize
        ensures { result ≡ length self.now }
    {
        self.steps.len()
    }

    /// Whether there is no step.
    pub fn is_empty(&self) -> bool
        ensures { IsTrue result ↔ (self.now ≡ []) }
    {
        self.steps.is_empty()
    }

    /// The thread of the step at a place, counted from 0, or `None` from the end on.
    pub fn get(&self, i: usize) -> Option<u8>
        ensures { result ≡ slice_get self.now i }
    {
        self.steps.get(i).copied()
    }

    /// The thread of each step.
    pub fn as_slice(&self) -> &[u8]
        ensures { result.now ≡ self.now }
    {
        self.steps.as_slice()
    }
}
