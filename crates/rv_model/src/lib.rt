//! The guest machine as a definition: what one step of one thread does, what a run is, which log it has,
//! and where a schedule first differs from a log; the laws of these definitions, each the contract of a function that
//! does nothing; and beside them the value functions of the instructions.
#![tactic(auto)]

pub mod code;
pub mod hearing;
pub mod law;
pub mod logged;
pub mod state;
mod thread;
pub mod values;
pub mod walk;
pub mod writes;
