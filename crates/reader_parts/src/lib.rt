//! The reader of some bytes of an access, as clauses want it: its literals and those of the writes that it may see, each with a
//! condition that tells whether it hits.
#![tactic(auto)]

pub mod bits;
pub mod built;
pub mod candidate;
pub mod condition;
pub mod initial;
pub mod reading;

pub use odr_list::memory::Memory;
