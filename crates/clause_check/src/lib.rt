//! The exact verdict on a derivation: whether each of its lines follows by the unit rule from the clauses and the
//! lines before it. What clauses and lines give without assumption is kept, so that a line costs its own propagation alone.
#![tactic(auto)]

pub mod base;
pub mod law;
pub mod trial;
pub mod verdict;

pub use verdict::check;
