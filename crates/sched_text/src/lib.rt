//! Schedules and their text: a schedule is the number of the thread that takes each step, in order, and its
//! text has a line for each run of one thread.
#![tactic(auto)]

pub mod fault;
pub mod laws;
mod line;
pub mod number;
pub mod read;
pub mod run;
pub mod schedule;
pub mod split;
#[cfg(test)]
mod tests;
pub mod write;
