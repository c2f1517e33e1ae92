//! The two ways of a shift.

/// Which way bits move.
#[derive(Clone, Copy, Debug)]
pub enum Way {
    /// To lower places.
    Down,
    /// To higher places.
    Up,
}
