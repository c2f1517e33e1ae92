//! Literals of all bytes that accesses may write, which are there before any reader stands on them.
#![tactic(auto)]

mod law;
mod written;

pub use law::written_bytes_are_parts;
pub use odr_list::memory::Memory;
pub use written::add_written;
