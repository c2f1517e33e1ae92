//! Terms over bit vectors of 1 to 64 bits, each named by an id in a pool. A term has the meaning of SMT-LIB's
//! theory FixedSizeBitVectors and of its logic QF_BV.
#![tactic(auto)]

mod bits;
pub mod node;
pub mod pool;
mod term;
#[cfg(test)]
mod tests;
mod value;

pub use odr_list::memory::Memory;
