//! Recording: the machine runs by the seeded schedule, and the log of that run is kept. The schedule is not.
#![tactic(auto)]

mod log_so_far;
mod run;
#[cfg(test)]
mod tests;

pub use odr_list::memory::Memory;
pub use run::{Recorded, record_run};
