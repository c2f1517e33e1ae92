//! What stands for "one place before another".
use clause_store::lit::Lit;

/// The literal that is true where one place stands before another.
#[derive(Clone, Copy, Debug)]
pub enum OrderLit {
    /// It always does.
    Always,
    /// It never does.
    Never,
    /// It does where this literal is true.
    Is(Lit),
}
