//! Guest calls as terms over what is given.
#![tactic(auto)]

pub mod answer;
pub mod asks;
pub mod buffer;
pub mod call;
pub mod conjunction;
pub mod law;
pub mod record;
pub mod refused;

pub use odr_list::memory::Memory;
