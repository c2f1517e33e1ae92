//! What a guided walk of a log has at each of its steps: its instruction, its accesses with their rights and links, and what
//! of a run the walk tells.
#![tactic(auto)]

pub mod law;
