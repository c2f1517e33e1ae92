ghost use Rattle.std.specs.Prelude.{◌≡◌, ◌++◌, length, min, take, drop};

use std::marker::Model;

/// Bytes that are handed out from the front, seen as those that are left.
#[derive(Debug, Drop)]
pub(crate) struct BytesLeft {
    bytes: Vec<u8>,
    at: usize,
}

impl Model for BytesLeft {
    ghost use Rattle.std.specs.Prelude.{ℕ, ◌≤◌, List, length, drop};

    ghost Value = { List ℕ };

    ghost view = { λ b. drop b.at b.bytes.items };

    ghost invariant = { λ b. b.at ≤ length b.bytes.items };
}

impl BytesLeft {
    /// All bytes are left. Takes no memory.
    pub(crate) fn new(bytes: Vec<u8>) -> Self
        ensures { result ≡ bytes.items }
    {
        BytesLeft { bytes, at: 0 }
    }

    /// Hands out as many bytes as are left and have room, and gives their number.
    pub(crate) fn hand_out(&mut self, into: &mut [u8]) -> usize
        ensures count { result ≡ min (length self.old) (length into.new) }
        ensures handed { self.old ≡ take result into.new ++ self.new }
    {
        let left = &self.bytes[self.at..];
        let count = left.len().min(into.len());
        into[..count].copy_from_slice(&left[..count]);
        self.at += count;
        count
    }
}
