//! Guided walks: which schedules have a log, said by the bytes that each step reads, the outcomes of store-conditionals
//! and an order of steps.
#![tactic(auto)]

pub mod laws;
