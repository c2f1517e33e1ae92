//! A store-conditional that looks back to a load-reserved, and the writes that may end the reservation.
use clause_store::lit::Lit;
use odr_list::list::List;
use order_clauses::order_lit::OrderLit;

/// A write of another thread that may end the reservation.
#[derive(Clone, Copy, Debug)]
pub struct Ender {
    /// Whether it stands after the load-reserved.
    pub after: OrderLit,
    /// Whether it stands before the store-conditional.
    pub before: OrderLit,
    /// Whether it takes place and touches the reserved word.
    pub hit: OrderLit,
}

/// A store-conditional, by the conditions on which its outcome rests.
#[derive(Debug, Drop)]
pub struct StoreConditional {
    /// Whether its address is that of the load-reserved.
    pub same: OrderLit,
    /// The writes of other threads that may end the reservation.
    pub enders: List<Ender>,
    /// The literal that is true where it succeeds.
    pub outcome: Lit,
}
