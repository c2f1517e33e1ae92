//! Bytes with one source in every run, as parts of a formula.
#![tactic(auto)]

mod law;
pub mod same;

pub use law::{initial_bytes_are_sources, same_bytes_are_parts, writes_are_sources};
pub use odr_list::memory::Memory;
