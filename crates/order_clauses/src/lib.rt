//! Clauses whose satisfying assignments are the total orders of some places that keep recorded pairs.
#![tactic(auto)]

pub mod additions;
pub mod law;
pub mod neighbours;
pub mod numbering;
pub mod order;
pub mod order_lit;
pub mod ordered;
pub mod pair;
pub mod rings;
pub mod table;
#[cfg(test)]
mod tests;

pub use odr_list::memory::Memory;
