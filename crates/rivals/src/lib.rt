//! The accesses of other threads that may end a reservation, each with what says that it stands between the load-reserved and the
//! store-conditional.
#![tactic(auto)]

pub mod rivals;
#[cfg(test)]
mod tests;

pub use odr_list::memory::Memory;
