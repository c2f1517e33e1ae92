//! Clauses that make a reader of bytes see the newest write before it.
#![tactic(auto)]

pub mod both;
mod copied;
mod implied;
pub mod law;
mod named;
mod newest;
mod olders;
pub mod reader;
pub mod same;
mod selected;
pub mod sources;
#[cfg(test)]
mod tests;

pub use odr_list::memory::Memory;
