ghost use Rattle.std.specs.Prelude.{◌≡◌, ◌↔◌, ◌≤◌, [], ◌++◌, length, IfOk, IsErrOf, IsTrue, is_ok, if◌then◌else◌};
ghost use Rattle.odr_io.specs.Calls.{after_call, fails_next, no_calls};

use crate::calls::Calls;
use crate::fail::SaveFail;
use crate::sink::Sink;
use std::alloc::Global;
use std::marker::Model;

/// A sink in memory, whose calls fail where their numbers say so.
#[derive(Debug, Drop)]
pub struct MemSink {
    bytes: Vec<u8>,
    calls: Calls,
}

impl Model for MemSink {
    ghost use Rattle.odr_io.specs.InMemory.{SinkInMemory};

    ghost Value = { SinkInMemory };

    ghost view = { λ s. record { written = s.bytes.items; calls = s.calls } };
}

impl MemSink {
    /// No byte was written; the calls whose numbers are in `fails` are to fail. Takes no memory.
    pub fn new(alloc: Global, fails: Vec<u64>) -> Self
        ensures { result ≡ record { written = []; calls = no_calls fails.items } }
    {
        MemSink {
            bytes: Vec::new(alloc),
            calls: Calls::new(fails),
        }
    }

    /// The bytes written so far.
    pub fn bytes(&self) -> &[u8]
        ensures { result.now ≡ self.now.written }
    {
        self.bytes.as_slice()
    }
}

impl Sink for MemSink {
    ghost use Rattle.std.specs.Prelude.{Some};

    ghost written = { λ s. Some s.written };

    ghost faults = { λ s. s.calls.faults };

    fn write(&mut self, piece: &[u8]) -> Result<usize, SaveFail>
        ensures whole { IfOk result (λ count. count ≡ length piece.now) }
        ensures written { self.new.written ≡
            (if is_ok result then self.old.written ++ piece.now else self.old.written) }

        ensures fails { IsErrOf result SaveFail.Failed ↔ IsTrue (fails_next self.old.calls) }
        ensures calls { self.new.calls ≡ after_call self.old.calls }
        ensures never_falls { self.old.calls.faults ≤ self.new.calls.faults }
    {
        self.calls.make()?;
        self.bytes.extend_from_slice(piece)?;
        Ok(piece.len())
    }
}
