ghost use Rattle.std.specs.Prelude.{◌≡◌};
ghost use Rattle.std.specs.Io.{ReadsAtMost};
ghost use Rattle.std.specs.Io.KnownBytes.{ReadConsumes};

use crate::fail::Failed;
use crate::source::Source;
use std::io;
use std::io::{ErrorKind, Read};
use std::marker::Model;

/// A source over a reader of std, which tells nothing, seen as its count of faults.
///
/// Every error of the reader is a fault, but for a signal that cuts a read short: then it reads again.
#[derive(Debug, Drop)]
pub struct StdSource<I> {
    reader: I,
    faults: u64,
}

impl<I> Model for StdSource<I> {
    ghost use Rattle.std.specs.Prelude.{ℕ};

    ghost Value = { ℕ };

    ghost view = { λ s. s.faults };
}

impl<I> StdSource<I> {
    /// The reader has not failed yet. Takes no memory.
    pub fn new(reader: I) -> Self
        ensures { result ≡ 0 }
    {
        StdSource { reader, faults: 0 }
    }
}

impl<I: Read> Source for StdSource<I> {
    ghost use Rattle.std.specs.Prelude.{None};

    ghost left = { λ _. None };

    ghost faults = { λ faults. faults };

    fn read(&mut self, into: &mut [u8]) -> Result<usize, Failed> {
        match read_some(&mut self.reader, into) {
            Ok(count) => Ok(count),
            Err(_) => {
                self.faults = self.faults.saturating_add(1);
                Err(Failed)
            }
        }
    }
}

/// Reads once, and again where a signal cut the read short.
fn read_some<I: Read>(reader: &mut I, into: &mut [u8]) -> io::Result<usize>
    ensures bound { ReadsAtMost result into.new }
    ensures bytes { ReadConsumes (I.remaining reader.old) (I.remaining reader.new) result into.new }
{
    for _ in 0..u64::MAX {
        match reader.read(into) {
            Err(error) if error.kind() == ErrorKind::Interrupted => {}
            answer => return answer,
        }
    }
    Err(io::Error::from(ErrorKind::Interrupted))
}
