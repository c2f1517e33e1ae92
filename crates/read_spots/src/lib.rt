//! For each byte that an access reads, its one source in every run or all spots at which it may have been written.
#![tactic(auto)]

pub mod source;
pub mod spots;
#[cfg(test)]
mod tests;

pub use odr_list::memory::Memory;
