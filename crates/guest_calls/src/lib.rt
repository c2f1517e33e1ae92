//! The guest calls: when a thread is blocked, and what a call answers and does to the state that the calls
//! share and to the memory, as the model's table of calls has it. Threads, mutexes and the bytes of a call are
//! kept in place, so that no call takes memory; a record of a note alone does.
#![tactic(auto)]

mod answers;
pub mod call;
pub mod call_state;
mod end_values;
pub mod law;
pub mod note;
pub mod piece;
mod tape;

pub use odr_list::memory::Memory;
