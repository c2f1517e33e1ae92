ghost use Rattle.std.specs.Prelude.{◌≡◌, [], ◌++◌, length, IfOk, IsOkUnless, is_ok, if◌then◌else◌};

use crate::fail::SaveFail;
use crate::sink::Sink;
use std::alloc::Global;
use std::marker::Model;

/// A sink in memory that never fails, seen as the bytes written so far.
#[derive(Debug, Drop)]
pub struct SureSink {
    bytes: Vec<u8>,
}

impl Model for SureSink {
    ghost use Rattle.std.specs.Prelude.{ℕ, List};

    ghost Value = { List ℕ };

    ghost view = { λ s. s.bytes.items };
}

impl SureSink {
    /// No byte was written. Takes no memory.
    pub fn new(alloc: Global) -> Self
        ensures { result ≡ [] }
    {
        SureSink {
            bytes: Vec::new(alloc),
        }
    }

    /// The bytes written so far.
    pub fn bytes(&self) -> &[u8]
        ensures { result.now ≡ self.now }
    {
        self.bytes.as_slice()
    }
}

impl Sink for SureSink {
    ghost use Rattle.std.specs.Prelude.{Some};

    ghost written = { λ s. Some s };

    ghost faults = { λ _. 0 };

    fn write(&mut self, piece: &[u8]) -> Result<usize, SaveFail>
        ensures never_fails { IsOkUnless result SaveFail.Memory }
        ensures whole { IfOk result (λ count. count ≡ length piece.now) }
        ensures written { self.new ≡ (if is_ok result then self.old ++ piece.now else self.old) }
    {
        self.bytes.extend_from_slice(piece)?;
        Ok(piece.len())
    }
}
