//! A list of clauses stands for an image and a log, and the order of accesses decides all its variables.
#![tactic(auto)]

mod law;

pub use law::{order_decides_all, order_gives_accesses, whole_formulas_stand};
