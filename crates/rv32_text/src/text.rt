ghost use Rattle.std.specs.Prelude.{◌≡◌, ◌++◌, IfOk, is_ok, if◌then◌else◌, string_bytes, codes};
ghost use Rattle.rv32_decode.specs.Valid.{IsValid};
ghost use Rattle.rv32_text.specs.Text.{instr_text_of};

use crate::forms;
use odr_list::memory::Memory;
use rv32_asm::mnemonic::{
    amo_name, branch_name, immediate_name, load_name, order, register_operation_name, store_name,
};
use rv32_decode::instr::Instr;
use std::alloc::{AllocError, Global};

/// Appends the text of an instruction; want of memory leaves `into` as it was.
pub fn instr_text(alloc: Global, i: &Instr, into: &mut Vec<u8>) -> Result<(), Memory>
    requires { IsValid i.now }
    ensures { into.new.items ≡ (if is_ok result then into.old.items ++ instr_text_of i.now else into.old.items) }
{
    let text = text_of(alloc, *i)?;
    into.extend_from_slice(text.as_bytes())?;
    Ok(())
}

fn text_of(alloc: Global, i: Instr) -> Result<String, AllocError>
    ensures { IfOk result (λ text. string_bytes text ≡ instr_text_of i) }
{
    match i {
        Instr::Lui { rd, imm } => forms::upper(alloc, "lui", rd, imm / 4096),
        Instr::Auipc { rd, imm } => forms::upper(alloc, "auipc", rd, imm / 4096),
        Instr::Jal { rd, offset } => forms::jump(alloc, "jal", rd, offset),
        Instr::Jalr { rd, rs1, offset } => forms::indexed(alloc, "jalr", rd, offset, rs1),
        Instr::Branch {
            op,
            rs1,
            rs2,
            offset,
        } => forms::two_and_number(alloc, branch_name(op), rs1, rs2, offset),
        Instr::Load {
            op,
            rd,
            rs1,
            offset,
        } => forms::indexed(alloc, load_name(op), rd, offset, rs1),
        Instr::Store {
            op,
            rs1,
            rs2,
            offset,
        } => forms::indexed(alloc, store_name(op), rs2, offset, rs1),
        Instr::Imm { op, rd, rs1, imm } => {
            forms::two_and_number(alloc, immediate_name(op), rd, rs1, imm)
        }
        Instr::Op { op, rd, rs1, rs2 } => {
            forms::three(alloc, register_operation_name(op), rd, rs1, rs2)
        }
        Instr::Fence { rd, rs1, imm } => forms::fence(alloc, "fence", rd, rs1, imm),
        Instr::Ecall => String::from_str(alloc, "ecall"),
        Instr::Ebreak => String::from_str(alloc, "ebreak"),
        Instr::LoadReserved { rd, rs1, aq, rl } => {
            forms::reserved(alloc, "lr.w", order(aq, rl), rd, rs1)
        }
        Instr::StoreConditional {
            rd,
            rs1,
            rs2,
            aq,
            rl,
        } => forms::atomic(alloc, "sc.w", order(aq, rl), rd, rs2, rs1),
        Instr::Amo {
            op,
            rd,
            rs1,
            rs2,
            aq,
            rl,
        } => forms::atomic(alloc, amo_name(op), order(aq, rl), rd, rs2, rs1),
    }
}
