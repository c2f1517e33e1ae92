use crate::packed::Packed;

/// The two literals that a clause watches; one twice where the clause has no other.
#[derive(Clone, Copy, Debug)]
pub struct Pair {
    pub one: Packed,
    pub two: Packed,
}

/// A clause in the row of a literal that it watches.
#[derive(Clone, Copy, Debug)]
pub struct Watcher {
    /// The clause's number.
    pub clause: u32,
    /// A literal of the clause: where it is true, the clause need not be looked at.
    pub blocker: Packed,
}

/// Where a clause's literals lie, beside those that it watches: a visit reads all four at once.
#[derive(Clone, Copy, Debug)]
pub struct Entry {
    pub start: u32,
    pub end: u32,
    pub pair: Pair,
}
