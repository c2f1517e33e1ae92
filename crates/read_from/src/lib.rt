//! The formula of an image and a log: clauses whose assignments are the schedules that have the log, in which the order of those
//! accesses that race decides all else.
#![tactic(auto)]

pub mod build;
pub mod formula;

pub use odr_list::memory::Memory;
