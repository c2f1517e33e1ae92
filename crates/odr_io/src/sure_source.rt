ghost use Rattle.std.specs.Prelude.{◌≡◌, ◌++◌, length, min, take, IfOk, IsOk};

use crate::bytes_left::BytesLeft;
use crate::fail::Failed;
use crate::source::Source;
use std::marker::Model;

/// A source in memory that never fails, seen as the bytes that are left.
#[derive(Debug, Drop)]
pub struct SureSource {
    left: BytesLeft,
}

impl Model for SureSource {
    ghost use Rattle.std.specs.Prelude.{ℕ, List};

    ghost Value = { List ℕ };

    ghost view = { λ s. s.left };
}

impl SureSource {
    /// All bytes are left. Takes no memory.
    pub fn new(bytes: Vec<u8>) -> Self
        ensures { result ≡ bytes.items }
    {
        SureSource {
            left: BytesLeft::new(bytes),
        }
    }
}

impl Source for SureSource {
    ghost use Rattle.std.specs.Prelude.{Some};

    ghost left = { λ s. Some s };

    ghost faults = { λ _. 0 };

    fn read(&mut self, into: &mut [u8]) -> Result<usize, Failed>
        ensures never_fails { IsOk result }
        ensures count { IfOk result (λ count. count ≡ min (length self.old) (length into.new)) }
        ensures handed { IfOk result (λ count. self.old ≡ take count into.new ++ self.new) }
    {
        Ok(self.left.hand_out(into))
    }
}
