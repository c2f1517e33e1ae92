//! The guest machine: eight threads over one memory, changed in place one atomic step at a time.
#![tactic(auto)]

mod after;
mod alone;
mod code;
mod enabled;
pub mod machine;
mod memory_access;
pub mod note;
mod run;
mod span;
mod threads;
pub mod wait;

pub use odr_list::memory::Memory;
