//! The text of an instruction, which is a line of assembly text.
#![tactic(auto)]

mod forms;
mod laws;
mod text;

pub use laws::text_is_assembled;
pub use odr_list::memory::Memory;
pub use text::instr_text;

#[cfg(test)]
mod tests;
