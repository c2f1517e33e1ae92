//! A search by learned clauses for an assignment that satisfies clauses, or for a derivation of the empty line.
//! Every line that it learns is one of the derivation, and names the variables of a given list alone where these
//! decide all others.
#![tactic(auto)]

pub mod analysis;
pub mod answer;
pub mod backjump;
pub mod cutting;
pub mod descent;
pub mod heap;
pub mod hints;
pub mod law;
pub mod marks;
pub mod model;
pub mod picking;
pub mod restarts;
pub mod scout;
pub mod search;
pub mod solver;
#[cfg(test)]
mod tests;
