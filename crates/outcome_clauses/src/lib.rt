//! Clauses that make a store-conditional succeed exactly where no write ends its reservation.
//!
//! A store-conditional that looks back to no load-reserved always fails: its outcome is the constant false, and no clause
//! is needed.
#![tactic(auto)]

mod failures;
pub mod law;
mod none_of;
pub mod outcomes;
pub mod placed;
pub mod store_conditional;
#[cfg(test)]
mod tests;

pub use odr_list::memory::Memory;
