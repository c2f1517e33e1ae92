//! The words of a command line, read as the job that they are.
//!
//! A test of the crate's own says first which words are a job, since some that clap would take are none.
//! clap then splits those that are, and the crate reads the numbers.
#![tactic(auto)]

mod command;
pub mod fault;
mod given;
pub mod job;
mod making;
mod number;
mod options;
mod positionals;
mod read;
mod reading;
mod split;
mod word;

pub use read::read_words;
