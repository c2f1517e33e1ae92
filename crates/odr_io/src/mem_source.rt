ghost use Rattle.std.specs.Prelude.{◌≡◌, ◌↔◌, ◌≤◌, ◌++◌, length, min, take, IfOk, IsErr, IsTrue, OnErr};
ghost use Rattle.odr_io.specs.Calls.{after_call, fails_next, no_calls};

use crate::bytes_left::BytesLeft;
use crate::calls::Calls;
use crate::fail::Failed;
use crate::source::Source;
use std::marker::Model;

/// A source in memory, whose calls fail where their numbers say so.
#[derive(Debug, Drop)]
pub struct MemSource {
    left: BytesLeft,
    calls: Calls,
}

impl Model for MemSource {
    ghost use Rattle.odr_io.specs.InMemory.{SourceInMemory};

    ghost Value = { SourceInMemory };

    ghost view = { λ s. record { left = s.left; calls = s.calls } };
}

impl MemSource {
    /// All bytes are left; the calls whose numbers are in `fails` are to fail. Takes no memory.
    pub fn new(bytes: Vec<u8>, fails: Vec<u64>) -> Self
        ensures { result ≡ record { left = bytes.items; calls = no_calls fails.items } }
    {
        MemSource {
            left: BytesLeft::new(bytes),
            calls: Calls::new(fails),
        }
    }
}

impl Source for MemSource {
    ghost use Rattle.std.specs.Prelude.{Some};

    ghost left = { λ s. Some s.left };

    ghost faults = { λ s. s.calls.faults };

    fn read(&mut self, into: &mut [u8]) -> Result<usize, Failed>
        ensures count { IfOk result (λ count. count ≡ min (length self.old.left) (length into.new)) }
        ensures handed { IfOk result (λ count. self.old.left ≡ take count into.new ++ self.new.left) }
        ensures kept { OnErr result (self.new.left ≡ self.old.left) }

        ensures fails { IsErr result ↔ IsTrue (fails_next self.old.calls) }
        ensures calls { self.new.calls ≡ after_call self.old.calls }
        ensures never_falls { self.old.calls.faults ≤ self.new.calls.faults }
    {
        self.calls.make()?;
        Ok(self.left.hand_out(into))
    }
}
