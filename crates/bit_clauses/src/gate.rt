//! The gates of two inputs that operations use bit by bit.

/// A gate of two inputs.
#[derive(Clone, Copy, Debug)]
pub enum Gate {
    And,
    Or,
    Xor,
}
