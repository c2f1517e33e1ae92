//! Read bytes with one source in every run, by the values of terms.
#![tactic(auto)]

mod law;

pub use law::fixed_bytes_have_one_source;
