//! Which accesses of a log need an order: the others read what the recorded order alone decides.
#![tactic(auto)]

pub mod laws;
pub mod matrix;
pub mod outcome;
mod put;
pub mod race_set;
pub mod reading;
pub mod shape;
pub mod source;

pub use odr_list::memory::Memory;
