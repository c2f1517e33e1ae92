//! What valid logs have: calls that read bytes, threads of few steps, accesses of few bytes. With it, a whole formula of a valid log
//! stands for it.
#![tactic(auto)]

mod law;

pub use law::{
    valid_accesses_are_short, valid_formulas_stand, valid_logs_have_few_steps,
    valid_logs_read_bytes,
};
