ghost use Rattle.std.specs.Prelude.{◌≡◌, ◌≤◌, length, take, drop};

use std::marker::Model;

/// What is left of an input. It is kept whole, with the number of bytes that were read.
#[derive(Drop)]
pub struct Tape {
    bytes: Vec<u8>,
    position: usize,
}

impl Model for Tape {
    ghost use Rattle.std.specs.Prelude.{List, ℕ, ◌≤◌, length, drop};

    ghost Value = { List ℕ };

    ghost view = { λ tape. drop tape.position tape.bytes.items };

    ghost invariant = { λ tape. tape.position ≤ length tape.bytes.items };
}

impl Tape {
    pub fn new(bytes: Vec<u8>) -> Tape
        ensures { result ≡ bytes.items }
    {
        Tape { bytes, position: 0 }
    }

    /// The first bytes that are left, at most `count` of them.
    pub fn front(&self, count: u32) -> &[u8]
        ensures bytes { result.now ≡ take count self.now }
        ensures few { length result.now ≤ count }
    {
        let left = &self.bytes[self.position..];
        &left[..left.len().min(count as usize)]
    }

    /// Leaves out the first bytes.
    pub fn skip(&mut self, count: usize)
        ensures { self.new ≡ drop count self.old }
    {
        self.position += count.min(self.bytes.len() - self.position);
    }
}
