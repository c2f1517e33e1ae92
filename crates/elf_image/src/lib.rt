//! Static ELF32 files of RISC-V programs: the image that a file gives, and the memory that a guest
//! program sees: the image's regions and eight stacks, as the writes so far left them.
#![tactic(auto)]

pub mod cell;
mod checks;
pub mod fault;
mod field;
mod header;
pub mod image;
mod lookup;
pub mod region;
mod segments;
mod stack;
mod table;
#[cfg(test)]
mod tests;
pub mod write;

pub use odr_list::memory::Memory;
