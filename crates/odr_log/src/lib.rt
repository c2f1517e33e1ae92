//! The log of a recorded run: each thread's branch outcomes and jump targets, the guest calls in the order
//! of all threads, and the end. Who won a data race is not kept.
//!
//! A log has one spelling in bytes, which `specs/Grammar.antt` says part by part. [`read_log`] gives the log that
//! bytes spell, or the place where they stop to be one, and [`write_log`] gives a log's bytes.
#![tactic(auto)]

mod fault;
mod laws;
pub mod log;
mod read;
mod reading;
mod same;
mod steps;
mod stop;
mod streams;
mod write;

pub use fault::LogFault;
pub use laws::{one_first_bad, one_spelling};
pub use odr_list::memory::Memory;
pub use read::read_log;
pub use streams::{output, tape};
pub use write::write_log;

#[cfg(test)]
mod tests;
