//! The seeded choice among the threads that may step: one word of PCG32 for each place of a schedule.
#![tactic(auto)]

pub mod chooser;
#[cfg(test)]
mod tests;
