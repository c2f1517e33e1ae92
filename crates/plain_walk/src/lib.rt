//! A plain, slow program for guided walks: it walks along a list of steps, with each read byte and each outcome of a
//! store-conditional given as data, and its contracts are the definitions of `guided_walk`. It says what the
//! definitions mean, and no command runs on it.
#![tactic(auto)]

mod before;
mod fit;
pub mod given;
mod holds;
mod order;
pub mod table;
mod told;
mod visit;
mod walk;

pub use fit::fits;
pub use holds::is_guided;
pub use walk::walk_along;
