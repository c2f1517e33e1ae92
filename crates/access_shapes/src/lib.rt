//! What is known of accesses by their terms, as the race set wants it: whether they read and write, their places where addresses
//! are constants, and what they look back to.
#![tactic(auto)]

mod shape;

pub use odr_list::memory::Memory;
pub use shape::{shape_of, shapes_of};
