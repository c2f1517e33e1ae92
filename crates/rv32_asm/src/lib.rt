//! From assembly text to the bytes of an ELF file.
#![tactic(auto)]

mod assembler;
mod code;
mod draft;
mod elf;
mod emit;
mod fault;
mod instructions;
mod line;
pub mod mnemonic;
mod number;
mod operands;
mod reader;
mod registers;
mod resolve;
mod statement;
mod stored;

pub use assembler::assemble;
pub use fault::AsmFault;

#[cfg(test)]
mod tests;
