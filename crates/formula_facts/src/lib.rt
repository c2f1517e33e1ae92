//! All that a formula says of accesses and constraints, one after another.
#![tactic(auto)]

pub mod all;
pub mod bytes;
pub mod constraints;
pub mod known;
pub mod outcomes;

pub use odr_list::memory::Memory;
