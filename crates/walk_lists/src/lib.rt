//! Lists of all steps of a log in which each stands after what it is made of: along these a guided walk is worked out.
#![tactic(auto)]

mod law;

pub use law::walks_along_whole_lists;
