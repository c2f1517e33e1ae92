//! Terms that stand for a thread of a log along its walk, over what its accesses read in place of values.
#![tactic(auto)]

pub mod access;
pub mod compute;
pub mod constraints;
pub mod registers;
pub mod start;
pub mod variables;

pub use odr_list::memory::Memory;
