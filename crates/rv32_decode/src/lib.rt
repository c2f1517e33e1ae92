//! The instructions of RV32I with the extensions M and A, and the words that encode them.
#![tactic(auto)]

mod decoder;
mod encoder;
mod fields;
mod formats;
pub mod instr;
pub mod laws;
#[cfg(test)]
mod tests;

pub use decoder::decode;
pub use encoder::encode;
