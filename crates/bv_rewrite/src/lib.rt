//! Terms are made simpler by rules that keep their values. A rule sees a node on two terms of one width, and says
//! what may stand in the node's place. What the form of a node alone makes plainer needs no rule.
#![tactic(auto)]

pub mod add_by;
pub mod form;
#[cfg(test)]
mod form_tests;
mod part;
pub mod rewrite;
pub mod rule;
pub mod rules;
pub mod simplify;
#[cfg(test)]
mod tests;
pub mod view;
mod walk;

pub use odr_list::memory::Memory;
