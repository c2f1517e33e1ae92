//! What stands outside of the debugger: stores of files by name, sources of bytes and sinks for them.
//!
//! Each of the three is a trait whose ghost members say what the outside is told to hold, where it tells it,
//! and count its faults. Code above is proved against the traits. Three kinds of implementations stand here:
//! in memory with calls that are to fail (`Mem`), in memory without a fault (`Sure`), and over std (`Std`).
//! The last tell nothing: that a real file or stream keeps what it is given is not proved.
#![tactic(auto)]

mod bytes_left;
mod calls;
pub mod fail;
mod file_map;
pub mod files;
pub mod mem_files;
pub mod mem_sink;
pub mod mem_source;
pub mod sink;
pub mod source;
pub mod std_files;
pub mod std_sink;
pub mod std_source;
pub mod sure_files;
pub mod sure_sink;
pub mod sure_source;
#[cfg(test)]
mod tests;

pub use odr_list::memory::Memory;
