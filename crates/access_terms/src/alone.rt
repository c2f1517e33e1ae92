//! Steps that neither access memory nor call.
ghost use Rattle.std.specs.Prelude.{◌≡◌, ℕ, true, Option, IfOk, OnOk, is_some};
ghost use Rattle.elf_image.specs.Layout.{Layout};
ghost use Rattle.rv32_decode.specs.Valid.{IsValid};
ghost use Rattle.rv_model.specs.Instruction.{IsAlone};
ghost use Rattle.rv_model.specs.Walk.{goes_to, transfer_of};
ghost use Rattle.odr_log.specs.declared.log.Pos.{Pos};
ghost use Rattle.step_terms.specs.Made.{Grows};
ghost use Rattle.thread_terms.specs.Standing.{AreRegisters};
ghost use Rattle.thread_terms.specs.Steps.{IsStep};
ghost use Rattle.access_terms.specs.Alone.{Constrains, GoesOn, target_of, was_taken};

use crate::bits::constant_bit;
use bv_rewrite::rewrite::Rewrite;
use bv_terms::node::TermId;
use bv_terms::pool::TermPool;
use odr_list::memory::Memory;
use rv_model::state::Note;
use rv_model::walk::Place;
use rv32_decode::instr::Instr;
use thread_terms::access::Stepped;
use thread_terms::compute::{immediate_operation, number, register_operation};
use thread_terms::constraints::{branch, jump};

// Whether a branch is recorded as taken.
fn is_taken(shown: &Note) -> bool
    ensures { result ≡ was_taken shown.now }
{
    match shown {
        Note::Branch(taken) => *taken,
        _ => false,
    }
}

// The target that is recorded of a jump to an address that a register tells.
fn target(shown: &Note) -> u32
    ensures { result ≡ target_of shown.now }
{
    match shown {
        Note::Jump(target) => *target,
        _ => 0,
    }
}

// Whether the instruction goes on as it is recorded.
fn goes<R: Rewrite>(
    pool: &mut TermPool<'_>,
    book: &R,
    place: &Place,
    shown: &Note,
    registers: &[TermId; 32],
) -> Result<TermId, Memory>
    requires registers { AreRegisters pool.old registers.now }
    requires valid { IsValid place.now.instr }
    requires alone { IsAlone place.now.instr }
    requires leads { is_some (goes_to place.now.pc (transfer_of place.now.pc place.now.instr) shown.now) ≡ true }
    ensures constrains { IfOk result (λ id. Constrains pool.old pool.new registers.now place.now.pc place.now.instr shown.now id.number) }
    ensures grows { Grows pool.old pool.new }
{
    match place.instr {
        Instr::Branch { op, rs1, rs2, .. } => {
            branch(pool, book, registers, op, rs1, rs2, is_taken(shown))
        }
        Instr::Jalr { rs1, offset, .. } => {
            jump(pool, book, registers, rs1, offset, target(shown))
        }
        _ => constant_bit(pool, true),
    }
}

// Writes the register that the instruction writes.
fn go_on<R: Rewrite>(
    pool: &mut TermPool<'_>,
    book: &R,
    place: &Place,
    registers: &mut [TermId; 32],
) -> Result<(), Memory>
    requires registers { AreRegisters pool.old registers.old }
    requires valid { IsValid place.now.instr }
    requires alone { IsAlone place.now.instr }
    ensures goes_on { OnOk result (GoesOn pool.old pool.new registers.old registers.new place.now.pc place.now.instr) }
    ensures registers { OnOk result (AreRegisters pool.new registers.new) }
    ensures grows { Grows pool.old pool.new }
{
    match place.instr {
        Instr::Lui { rd, imm } => number(pool, registers, rd, imm),
        Instr::Auipc { rd, imm } => number(pool, registers, rd, place.pc.wrapping_add(imm)),
        Instr::Jal { rd, .. } => number(pool, registers, rd, place.pc.wrapping_add(4)),
        Instr::Jalr { rd, .. } => number(pool, registers, rd, place.pc.wrapping_add(4)),
        Instr::Imm { op, rd, rs1, imm } => {
            immediate_operation(pool, book, registers, op, rd, rs1, imm)
        }
        Instr::Op { op, rd, rs1, rs2 } => {
            register_operation(pool, book, registers, op, rd, rs1, rs2)
        }
        _ => Ok(()),
    }
}

/// A step that neither accesses memory nor calls: its register gets what the instruction computes, and a branch or a jump
/// goes where it is recorded.
pub fn alone<R: Rewrite>(
    pool: &mut TermPool<'_>,
    book: &R,
    place: &Place,
    shown: &Note,
    registers: &mut [TermId; 32],
) -> Result<Stepped, Memory>
    requires registers { AreRegisters pool.old registers.old }
    requires valid { IsValid place.now.instr }
    requires alone { IsAlone place.now.instr }
    requires leads { is_some (goes_to place.now.pc (transfer_of place.now.pc place.now.instr) shown.now) ≡ true }
    ensures step { IfOk result (λ stepped. (image : Layout) (p : Pos) (link : Option ℕ)
        → IsStep image p place.now.pc place.now.instr shown.now link pool.old pool.new registers.old registers.new stepped) }
    ensures registers { OnOk result (AreRegisters pool.new registers.new) }
    ensures grows { Grows pool.old pool.new }
{
    let constraint = goes(pool, book, place, shown, registers)?;
    go_on(pool, book, place, registers)?;
    Ok(Stepped {
        constraint,
        access: None,
    })
}
