//! The walk of a log: where each thread was at each of its counted steps, by the branches, jumps and calls that the
//! log has, and where it faulted. Registers and memory are not asked.
#![tactic(auto)]

mod cursor;
mod fault;
mod law;
mod step;
mod thread;
mod threads;
mod traces;

pub use law::one_walk;
pub use odr_list::memory::Memory;
pub use traces::Traces;
