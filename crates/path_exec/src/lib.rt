//! Symbolic paths of a log: each thread is followed once along its walk, with terms in place of values. What each access reads is
//! a variable for each byte, and everything else is a term over these.
#![tactic(auto)]

pub mod child;
pub mod ending;
pub mod fault;
pub mod follow;
pub mod joined;
pub mod link;
pub mod paths;
pub mod progress;
pub mod run;
pub mod step;
pub mod walker;

pub use odr_list::memory::Memory;
pub use paths::Paths;
