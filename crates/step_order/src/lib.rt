//! The counted steps of a log in an order in which each stands after what it is made of.
#![tactic(auto)]

mod order;
#[cfg(test)]
mod tests;

pub use odr_list::memory::Memory;
pub use order::order_of_steps;
