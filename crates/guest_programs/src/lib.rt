//! The programs of the worked rows, which the crates of tests share: constants alone.
#![tactic(auto)]

pub mod logs;
pub mod programs;
pub mod texts;
