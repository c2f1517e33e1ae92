ghost use Rattle.std.specs.Prelude.{◌≡◌, ◌<◌, ◌*◌, ◌/◌, IfOk};
ghost use Rattle.rv32_decode.specs.Valid.{IsValid};
ghost use Rattle.rv_model.specs.Thread.{register, with_register, next_pc, onward, gone_to};
ghost use Rattle.rv_model.specs.Instruction.{IsAlone, computes, jumps, branches, act};
ghost use Rattle.rv_model.specs.declared.hearing.Heard.{Heard};
ghost use Rattle.guest_machine.specs.Notes.{note_of, IsPlain};
ghost use Rattle.guest_machine.specs.Ran.{RanAlone};

use crate::note::Note;
use odr_log::log::Cause;
use rv_model::state::Local;
use rv_model::values::{alu, imm_alu, offset_by, taken};
use rv32_decode::instr::Instr;

/// Writes a register and goes on to the next word.
pub fn compute(local: &mut Local, rd: u8, value: u32)
    requires { rd < 32 }
    ensures { local.new ≡ onward (with_register local.old rd value) }
{
    if rd != 0 {
        local.registers[rd as usize] = value;
    }
    local.pc = local.pc.wrapping_add(4);
}

fn jump(local: &mut Local, rd: u8, target: u32, note: Note) -> Result<Note, Cause>
    requires { rd < 32 }
    ensures ran { RanAlone local.old (jumps local.old rd target (note_of note)) result local.new }
    ensures same { IfOk result (λ shown. shown ≡ note) }
{
    if target % 4 != 0 {
        return Err(Cause::Misaligned);
    }
    let next = local.next_pc();
    compute(local, rd, next);
    local.pc = target;
    Ok(note)
}

fn branch(local: &mut Local, taken: bool, target: u32) -> Result<Note, Cause>
    ensures ran { RanAlone local.old (branches local.old taken target) result local.new }
    ensures plain { IfOk result IsPlain }
{
    if !taken {
        local.pc = local.next_pc();
        return Ok(Note::Branch(false));
    }
    if target % 4 != 0 {
        return Err(Cause::Misaligned);
    }
    local.pc = target;
    Ok(Note::Branch(true))
}

/// An address with bit 0 cleared.
fn even(address: u32) -> u32
    ensures { result ≡ address / 2 * 2 }
{
    address / 2 * 2
}

fn compute_noted(local: &mut Local, rd: u8, value: u32) -> Result<Note, Cause>
    requires { rd < 32 }
    ensures ran { RanAlone local.old (computes local.old rd value) result local.new }
    ensures plain { IfOk result IsPlain }
{
    compute(local, rd, value);
    Ok(Note::Nothing)
}

/// Does an instruction that neither accesses memory nor calls.
#[tactic(auto, unfolding(rv_model::specs::Instruction::act))]
pub fn run_alone(local: &mut Local, instr: &Instr) -> Result<Note, Cause>
    requires valid { IsValid instr.now }
    requires alone { IsAlone instr.now }
    ensures ran { (heard : Heard) → RanAlone local.old (act local.old instr.now heard) result local.new }
    ensures plain { IfOk result IsPlain }
{
    match *instr {
        Instr::Lui { rd, imm } => compute_noted(local, rd, imm),
        Instr::Auipc { rd, imm } => {
            let value = local.pc.wrapping_add(imm);
            compute_noted(local, rd, value)
        }
        Instr::Jal { rd, offset } => {
            let target = offset_by(local.pc, offset);
            jump(local, rd, target, Note::Nothing)
        }
        Instr::Jalr { rd, rs1, offset } => {
            let target = even(offset_by(local.register(rs1), offset));
            jump(local, rd, target, Note::Jump(target))
        }
        Instr::Branch {
            op,
            rs1,
            rs2,
            offset,
        } => {
            let taken = taken(op, local.register(rs1), local.register(rs2));
            let target = offset_by(local.pc, offset);
            branch(local, taken, target)
        }
        Instr::Imm { op, rd, rs1, imm } => {
            let value = imm_alu(op, local.register(rs1), imm);
            compute_noted(local, rd, value)
        }
        Instr::Op { op, rd, rs1, rs2 } => {
            let value = alu(op, local.register(rs1), local.register(rs2));
            compute_noted(local, rd, value)
        }
        Instr::Fence { .. } => {
            local.pc = local.next_pc();
            Ok(Note::Nothing)
        }
        Instr::Ebreak => Err(Cause::Breakpoint),
        _ => unreachable!(),
    }
}
