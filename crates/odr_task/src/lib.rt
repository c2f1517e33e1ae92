//! What a command of the program does with the outside: it loads files, and what it came to is saved and printed, or
//! told as a refusal.
//!
//! Every command loads first, and changes nothing outside. What it came to is a value, [`done::Done`] or
//! [`refusal::Stop`]. [`settle::settle`] alone saves and prints, and answers the exit status.
#![tactic(auto)]

pub mod done;
mod leave;
pub mod load;
pub mod refusal;
mod report;
pub mod settle;
mod told;
