//! Pairs of places.

/// Two places of which neither is recorded to stand before the other, the smaller one first.
#[derive(Clone, Copy, Debug, Default)]
pub struct Pair {
    /// The smaller place.
    pub first: usize,
    /// The greater place.
    pub second: usize,
}
