//! What is known of the accesses of a log before clauses are built.
use happens_before::order::Order;
use odr_list::list::List;
use order_vars::order_vars::OrderVars;
use race_set::reading::Seen;
use race_set::shape::AccessShape;
use thread_terms::access::Access;

/// The accesses of a log as terms and as shapes, the bytes with one source, and the order of those that need one.
#[derive(Drop)]
pub struct Known {
    /// The recorded order.
    pub order: Order,
    pub accesses: List<Access>,
    /// The shape of each access.
    pub shapes: List<AccessShape>,
    pub seen: List<Seen>,
    pub vars: OrderVars,
    /// The place of each access among the ordered ones.
    pub places: List<Option<usize>>,
}
