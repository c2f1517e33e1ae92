//! The memory of a guest, changed in place: the regions of an image and eight stacks. Each call is the
//! definition of memory for the list of writes so far.
#![tactic(auto)]

mod accesses;
mod blocks;
mod buffer;
pub mod guest_memory;
pub mod law;
mod opening;
#[cfg(test)]
mod tests;
pub mod width;

pub use odr_list::memory::Memory;
