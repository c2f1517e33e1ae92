//! The two list types that every crate of this repository hands around. A contract sees each of them as
//! the list of its items; they are made from a `Vec` and given back as one without taking memory.
#![tactic(auto)]

pub mod bytes;
pub mod list;
pub mod memory;
