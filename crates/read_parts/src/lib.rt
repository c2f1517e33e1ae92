//! Bytes that accesses read, as parts of a formula.
#![tactic(auto)]

mod law;
pub mod read;

pub use law::readers_are_parts;
pub use odr_list::memory::Memory;
