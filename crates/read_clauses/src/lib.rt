//! Readers of bytes and store-conditionals: clauses speak of them by literals, symbolic paths by the values of terms.
#![tactic(auto)]

mod law;

pub use law::{bytes_are_read_together, conditionals_succeed_by_terms, readers_see_by_terms};
