//! Variables for the order of chosen steps of a log.
#![tactic(auto)]

pub mod law;
pub mod matrix;
pub mod order_vars;
#[cfg(test)]
mod tests;

pub use odr_list::memory::Memory;
