//! The notes of the steps of a log's walk, which the plain program for guided walks takes as data.
#![tactic(auto)]

mod note;
mod notes;

pub use notes::notes_of_log;
