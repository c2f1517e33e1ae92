//! The places of accesses in the table of chosen steps, and what its literals say of the order of all accesses.
#![tactic(auto)]

pub mod law;
pub mod places;
#[cfg(test)]
mod tests;

pub use odr_list::memory::Memory;
