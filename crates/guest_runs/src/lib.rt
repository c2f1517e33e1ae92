//! Runs of the worked programs, which the crates of tests share: their logs, schedules that have them, what the steps of such
//! a schedule hear, and the walk along them. No contract says that there is a run: the tests above do.
#![tactic(auto)]

pub mod changes;
pub mod files;
pub mod guests;
pub mod loaded;
pub mod logged;
pub mod no_run;
pub mod runs;
pub mod walks;
