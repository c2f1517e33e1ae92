//! What decides which write a reader sees, as terms: whether two bytes have one address, whether a write takes place and hits it, or
//! touches a reserved word, and the byte that is there in the beginning.
#![tactic(auto)]

pub mod hit;
pub mod initial;
pub mod place;
#[cfg(test)]
mod tests;
pub mod touch;

pub use odr_list::memory::Memory;
