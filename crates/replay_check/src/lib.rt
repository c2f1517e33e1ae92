//! Exact replay: whether a schedule has a log, else the first place at which it differs from it.
#![tactic(auto)]

mod met;
mod next;
pub mod replay;
#[cfg(test)]
mod tests;
mod whole;

pub use odr_list::memory::Memory;
