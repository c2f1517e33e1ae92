//! Orders of the steps of a log.
#![tactic(auto)]

pub mod laws;
