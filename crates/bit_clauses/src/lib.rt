//! Bits of terms: for each operation a circuit of gates whose output literals spell the operation's value.
#![tactic(auto)]

mod adder;
pub mod bit_list;
mod bitwise;
pub mod blaster;
mod byte_select;
mod division;
mod flip;
mod gate;
pub mod law;
mod marks;
mod nodes;
mod operation;
mod product;
mod select;
mod shift;
mod subtract;
mod unary;
mod variable_map;
mod variables;
mod way;
mod wiring;

pub use odr_list::memory::Memory;
