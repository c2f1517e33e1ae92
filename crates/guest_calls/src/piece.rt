ghost use Rattle.std.specs.Prelude.{◌≡◌, ◌≤◌, ◌↔◌, length, IsTrue};

use smallvec::SmallVec;
use std::alloc::Global;
use std::marker::Model;

/// The most bytes that go through a call.
pub const MOST: usize = 256;

/// At most 256 bytes, kept in place. Contracts see the list of them. No call takes memory.
#[derive(Debug, Drop)]
pub struct Piece {
    bytes: SmallVec<u8, MOST>,
}

impl Model for Piece {
    ghost use Rattle.std.specs.Prelude.{List, ℕ, ◌≡◌, ◌≤◌, length};

    ghost Value = { List ℕ };

    ghost view = { λ piece. piece.bytes.items };

    ghost invariant = { λ piece. (length piece.bytes.items ≤ 256) × (piece.bytes.capacity ≡ 256) };
}

impl Piece {
    /// A copy of these bytes.
    pub fn of(alloc: Global, bytes: &[u8]) -> Piece
        requires { length bytes.now ≤ 256 }
        ensures { result ≡ bytes.now }
    {
        match SmallVec::from_slice(alloc, bytes) {
            Ok(bytes) => Piece { bytes },
            Err(_) => unreachable!(),
        }
    }

    /// The bytes.
    pub fn as_slice(&self) -> &[u8]
        ensures bytes { result.now ≡ self.now }
        ensures few { length self.now ≤ 256 }
    {
        self.bytes.as_slice()
    }

    /// The number of bytes.
    pub fn len(&self) -> usize
        ensures value { result ≡ length self.now }
        ensures few { result ≤ 256 }
    {
        self.bytes.len()
    }

    /// Whether these are the bytes of a slice.
    pub fn same(&self, bytes: &[u8]) -> bool
        ensures { IsTrue result ↔ (self.now ≡ bytes.now) }
    {
        self.bytes.as_slice() == bytes
    }
}
