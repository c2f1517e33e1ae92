//! Gates over literals: each call adds a fresh output and the clauses that fix it as the gate's value.
#![tactic(auto)]

mod fix;
pub mod gates;
pub mod law;
#[cfg(test)]
mod tests;

pub use odr_list::memory::Memory;
