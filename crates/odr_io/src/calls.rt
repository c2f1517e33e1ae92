ghost use Rattle.std.specs.Prelude.{◌≡◌, ◌↔◌, ◌≤◌, IsTrue, IsErr};
ghost use Rattle.odr_io.specs.Calls.{after_call, fails_next, no_calls};

use crate::fail::Failed;
use std::marker::Model;

/// Counts the calls of a store or a stream in memory, and fails those whose numbers it was given.
#[derive(Debug, Drop)]
pub(crate) struct Calls {
    made: u64,
    failing: Vec<u64>,
    faults: u64,
}

impl Model for Calls {
    ghost use Rattle.odr_io.specs.Calls.{CallCount};

    ghost Value = { CallCount };

    ghost view = { λ c. record { made = c.made; failing = c.failing.items; faults = c.faults } };
}

impl Calls {
    /// No call was made, and none failed. Takes no memory.
    pub(crate) fn new(failing: Vec<u64>) -> Self
        ensures { result ≡ no_calls failing.items }
    {
        Calls {
            made: 0,
            failing,
            faults: 0,
        }
    }

    /// Counts a call; fails where its number is one of those that are to fail, and counts that fault.
    pub(crate) fn make(&mut self) -> Result<(), Failed>
        ensures failed { IsErr result ↔ IsTrue (fails_next self.old) }
        ensures never_falls { self.old.faults ≤ self.new.faults }
        ensures counted { self.new ≡ after_call self.old }
    {
        let fails = self.failing.contains(&self.made);
        self.made = self.made.saturating_add(1);
        if fails {
            self.faults = self.faults.saturating_add(1);
            return Err(Failed);
        }
        Ok(())
    }
}
