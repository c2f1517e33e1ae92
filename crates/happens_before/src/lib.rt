//! The order of steps that a log records, and whether the calls of a log fit the table of guest calls.
#![tactic(auto)]

mod fit;
pub mod order;
mod shared;
pub mod table;

pub use odr_list::memory::Memory;
