//! Terms, their literals and the clauses that fix these, kept together.
#![tactic(auto)]

pub mod encoder;

pub use odr_list::memory::Memory;
