//! The steps of a thread that access memory, and every other step but the calls, as terms over what accesses read.
#![tactic(auto)]

pub mod alone;
pub mod amo;
pub mod bits;
pub mod conditional;
pub mod fault;
pub mod load;
pub mod next;
pub mod place;
pub mod reserve;
pub mod right;
pub mod rights;
pub mod split;
pub mod store;

pub use odr_list::memory::Memory;
