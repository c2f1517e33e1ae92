//! Writes of other threads that may end a reservation.
use order_clauses::order_lit::OrderLit;

/// An access of another thread that may write to the reserved word.
#[derive(Clone, Copy, Debug)]
pub struct Rival {
    /// Its number among the accesses.
    pub access: usize,
    /// Whether it stands after the load-reserved.
    pub after: OrderLit,
    /// Whether it stands before the store-conditional.
    pub before: OrderLit,
}
