//! The visits of a walk so far.

ghost use Rattle.std.specs.Prelude.{◌≡◌, ◌∷◌, [], reverse, is_ok, if◌then◌else◌};
ghost use Rattle.std.specs.List.{find};
ghost use Rattle.std.specs.Option.{option_copied};
ghost use Rattle.plain_walk.specs.Data.{is_place, seen_of};
ghost use Rattle.plain_walk.specs.Tables.{visits_in};
ghost use Rattle.guided_walk.specs.Guided.{at};

use odr_list::memory::Memory;
use odr_log::log::{Cause, Pos};
use rv_model::hearing::Outcome;
use rv_model::state::Local;
use std::alloc::Global;
use std::marker::Model;

/// A thread before a step: `link` is the address of its last load-reserved, where no store-conditional stands after it.
#[derive(Clone, Copy)]
pub struct Before {
    pub local: Local,
    pub link: Option<u32>,
}

/// A step of a walk: the thread before it, and what the step does.
#[derive(Drop)]
pub struct Visited {
    pub at: Pos,
    pub before: Before,
    pub outcome: Outcome,
}

/// Visits, seen by contracts as their list, the newest first, and the visit that stands for every other step.
#[derive(Drop)]
pub struct Table {
    nothing: Visited,
    oldest_first: Vec<Visited>,
}

impl Model for Table {
    ghost use Rattle.std.specs.Prelude.{reverse};
    ghost use Rattle.plain_walk.specs.Tables.{Tabled};

    ghost Value = { Tabled };

    ghost view = { λ t. record { nothing = t.nothing; visits = reverse t.oldest_first.items } };
}

impl Table {
    /// No visit. Takes no memory.
    pub fn new(alloc: Global) -> Self
        ensures { result.visits ≡ [] }
    {
        Table {
            nothing: Visited {
                at: Pos { thread: 0, step: 0 },
                before: Before {
                    local: Local::first(0),
                    link: None,
                },
                outcome: Outcome::Faults(Cause::FetchFault),
            },
            oldest_first: Vec::new(alloc),
        }
    }

    /// Adds the newest visit; want of memory leaves the table as it was.
    pub fn push(&mut self, visited: Visited) -> Result<(), Memory>
        ensures nothing { self.new.nothing ≡ self.old.nothing }
        ensures visits { self.new.visits ≡ (if is_ok result then visited ∷ self.old.visits else self.old.visits) }
    {
        self.oldest_first.push(visited)?;
        Ok(())
    }

    /// The newest visit of a step, else the one that stands for every other step.
    pub fn at(&self, place: Pos) -> &Visited
        ensures seen { seen_of result.now.before ≡ (at (visits_in self.now) place).seen }
        ensures outcome { result.now.outcome ≡ (at (visits_in self.now) place).outcome }
    {
        match newest(self.oldest_first.as_slice(), place) {
            None => &self.nothing,
            Some(visited) => visited,
        }
    }
}

/// The last visit of a step.
fn newest(oldest_first: &[Visited], at: Pos) -> Option<&Visited>
    ensures { option_copied result ≡ find (λ visited. is_place at visited.at) (reverse oldest_first.now) }
{
    oldest_first.iter().rev().find(|visited| at.thread == visited.at.thread
        && at.step == visited.at.step)
}
