//! Certificates and their text: a certificate is a list of lines of literals, and its text has a line for the
//! mark and one for each of them.
#![tactic(auto)]

pub mod cert;
pub mod fault;
pub mod laws;
mod line;
mod literal;
mod order;
pub mod read;
#[cfg(test)]
mod tests;
pub mod write;
