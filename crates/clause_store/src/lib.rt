//! Literals, clauses whose literals lie in an arena that stands outside, and derivations; and the definitions
//! that everything about search cites: what satisfies clauses, and what follows from them by the unit rule.
#![tactic(auto)]

pub mod derivation;
pub mod law;
pub mod lit;
pub mod store;
#[cfg(test)]
mod tests;

pub use odr_list::memory::Memory;
