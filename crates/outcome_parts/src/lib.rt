//! Outcomes of store-conditionals, as parts of a formula.
#![tactic(auto)]

pub mod built;
mod law;
pub mod rival;
pub mod touching;

pub use law::outcomes_are_parts;
pub use odr_list::memory::Memory;
