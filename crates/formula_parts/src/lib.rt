//! Parts of a formula: clauses that are added one after the other, each with the facts on accesses that it says.
#![tactic(auto)]

mod law;

pub use law::{no_part, parts_compose, required_terms_are_parts, stands_on_later};
