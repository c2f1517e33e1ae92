//! What the steps of a guided walk can depend on: what is read at the steps that flow into them.
#![tactic(auto)]

mod law;

pub use law::{places_depend_on_flow, steps_depend_on_flow};
