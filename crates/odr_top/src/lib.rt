//! The top call: what the program does with its words and with the outside.
//!
//! A job is done in two parts. [`prepare`](prepare::prepare) reads the files that the job names and works out what
//! the job leaves; nothing outside has changed by then. [`settle`](odr_task::settle::settle) saves the file and prints
//! the lines. Each command has a file of its own here and in `specs`.
#![tactic(auto)]

mod asm;
mod infer;
mod load;
mod prepare;
mod record;
mod replay;
pub mod run;
