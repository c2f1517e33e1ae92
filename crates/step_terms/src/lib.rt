//! What the instructions compute, as terms: each function makes one term, simplified by a book of rules, whose value under
//! every assignment is what the instruction computes of its operands' values.
#![tactic(auto)]

pub mod address;
pub mod alu;
pub mod atomic;
pub mod branch;
mod division;
pub mod make;
pub mod memory;
mod product;
mod shift;
#[cfg(test)]
mod tests;
pub mod word;

pub use odr_list::memory::Memory;
