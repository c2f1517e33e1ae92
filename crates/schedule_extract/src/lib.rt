//! A schedule that keeps the recorded order of a log and the order of decided pairs of steps.
#![tactic(auto)]

pub mod extract;
pub mod laws;
mod marks;
mod ready;

pub use odr_list::memory::Memory;
