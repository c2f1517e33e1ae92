//! A list of steps that give literals a truth value, clauses that watch two of their literals each, and the
//! unit rule over both. Searches and checkers stand on it; their contracts see clauses and steps as lists.
#![tactic(auto)]

pub mod engine;
pub mod index;
pub mod load;
pub mod packed;
pub mod propagate;
mod rows;
pub mod step;
pub mod trail;
pub mod truth;
pub mod visit;
pub mod watcher;
