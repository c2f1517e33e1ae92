//! What is known of the accesses of a log's paths before clauses are built, and the clauses of their order: all that the parts of
//! a formula stand on.
#![tactic(auto)]

pub mod base;
pub mod chosen;

pub use odr_list::memory::Memory;
