//! What is known of an access before its addresses and outcomes are decided.
ghost use Rattle.std.specs.Prelude.{◌≡◌, ◌↔◌, ◌+◌, ◌<◌, ◌^◌, IsTrue};
ghost use Rattle.race_set.specs.Bytes.{byte_of, covers, HasByte, surely_at, may_be_at, reads_byte, may_write, surely_writes, may_write_at, may_write_word, is_unplaced_reader};

use odr_log::log::Pos;

/// Bytes in a row, at addresses modulo 2^32.
#[derive(Clone, Copy, Debug, PartialEq, Eq)]
pub struct Span {
    pub first: u32,
    pub len: u32,
}

/// An access: whether it reads and whether it writes, its place where the address is a constant, and of a
/// store-conditional that looks back to a load-reserved the position of that.
#[derive(Clone, Copy, Debug, PartialEq, Eq)]
pub struct AccessShape {
    pub pos: Pos,
    pub reads: bool,
    pub writes: bool,
    pub place: Option<Span>,
    pub link: Option<Pos>,
}

impl Span {
    /// The byte with a number in the span, modulo 2^32.
    pub fn byte(&self, i: u32) -> u32
        ensures { result ≡ byte_of self.now i }
    {
        self.first.wrapping_add(i)
    }

    /// Whether the span has a byte, modulo 2^32.
    pub fn covers(&self, byte: u32) -> bool
        ensures covers { result ≡ covers byte self.now }
        ensures has { IsTrue result ↔ HasByte self.now byte }
    {
        byte.wrapping_sub(self.first) < self.len
    }
}

/// Whether a byte is at a place, where that is known.
fn surely_at(byte: u32, place: &Option<Span>) -> bool
    ensures { result ≡ surely_at byte place.now }
{
    match place {
        Some(span) => span.covers(byte),
        None => false,
    }
}

/// Whether a byte can be at a place.
fn may_be_at(byte: u32, place: &Option<Span>) -> bool
    ensures { result ≡ may_be_at byte place.now }
{
    match place {
        Some(span) => span.covers(byte),
        None => true,
    }
}

impl AccessShape {
    /// Whether the access may write a byte.
    pub fn may_write(&self, byte: u32) -> bool
        ensures { result ≡ may_write byte self.now }
    {
        self.writes && may_be_at(byte, &self.place)
    }

    /// Whether the access writes a byte in every run.
    pub fn surely_writes(&self, byte: u32) -> bool
        ensures { result ≡ surely_writes byte self.now }
    {
        self.writes && self.link.is_none() && surely_at(byte, &self.place)
    }

    /// Whether the access may write a byte of the aligned word at an address.
    fn may_write_at(&self, word: u32) -> bool
        requires { word + 3 < 2 ^ 32 }
        ensures { result ≡ may_write_at word self.now }
    {
        self.may_write(word)
            || self.may_write(word + 1)
            || self.may_write(word + 2)
            || self.may_write(word + 3)
    }

    /// Whether the access may write a byte of the word at a place.
    pub fn may_write_word(&self, place: &Option<Span>) -> bool
        ensures { result ≡ may_write_word place.now self.now }
    {
        match place {
            Some(span) => self.may_write_at(span.first / 4 * 4),
            None => self.writes,
        }
    }

    /// Whether the access reads at an address that isn't known.
    pub fn is_unplaced_reader(&self) -> bool
        ensures { result ≡ is_unplaced_reader self.now }
    {
        self.reads && self.place.is_none()
    }
}
