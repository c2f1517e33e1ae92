//! What the walk of a log is made of: the places of the threads, and how control goes on from one to the next.

ghost use Rattle.std.specs.Prelude.{◌≡◌};
ghost use Rattle.rv_model.specs.Walk.{transfer_of};

use crate::values::offset_by;
use rv32_decode::instr::Instr;

/// A place of a thread: the address of an instruction, and the instruction.
#[derive(Clone, Copy, Debug, PartialEq, Eq)]
pub struct Place {
    pub pc: u32,
    pub instr: Instr,
}

/// The place of a fault; no instruction where none can be fetched or decoded.
#[derive(Clone, Copy, Debug, PartialEq, Eq)]
pub struct FaultPlace {
    pub pc: u32,
    pub instr: Option<Instr>,
}

/// How control goes on after an instruction (RV32I, "Control Transfer Instructions").
#[derive(Clone, Copy, Debug, PartialEq, Eq)]
pub enum Transfer {
    /// To the next word.
    Next,
    /// To the target of a JAL.
    Direct { target: u32 },
    /// To the target that a JALR finds in a register.
    Indirect,
    /// To the target of a branch, or to the next word.
    Branch { target: u32 },
    /// To the next word, with a guest call.
    Call,
    /// Nowhere: EBREAK faults.
    Breakpoint,
}

/// How control goes on after the instruction at an address.
#[tactic(auto, unfolding(crate::specs::Walk::transfer_of))]
pub fn transfer_of(pc: u32, instr: &Instr) -> Transfer
    ensures { result ≡ transfer_of pc instr.now }
{
    match instr {
        Instr::Jal { offset, .. } => Transfer::Direct {
            target: offset_by(pc, *offset),
        },
        Instr::Jalr { .. } => Transfer::Indirect,
        Instr::Branch { offset, .. } => Transfer::Branch {
            target: offset_by(pc, *offset),
        },
        Instr::Ecall => Transfer::Call,
        Instr::Ebreak => Transfer::Breakpoint,
        _ => Transfer::Next,
    }
}
