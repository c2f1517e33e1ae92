//! What accesses see of each other, by the values of their terms: where each read byte comes from in an order of the accesses.
#![tactic(auto)]

mod law;

pub use law::{terms_explain_schedules, terms_fit_by_order};
