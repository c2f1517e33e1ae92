//! Readers of instructions.
ghost use Rattle.std.specs.Prelude.{◌≡◌, ◌<◌, IfSome, ◌≤ℤ◌, Some};
ghost use Rattle.rv32_asm.specs.Reading.{Gives};
ghost use Rattle.rv32_asm.specs.Names.{mnemonic_of};
ghost use Rattle.rv32_asm.specs.Operands.{lui_at, auipc_at, jump_of, jal_at, jalr_at, branch_of, branch_at, load_at, store_at, lowest as lowest_of, highest as highest_of, immediate_at, operation_at, fence_at, load_immediate_at, jump_at, load_address_at, operands_at, load_reserved_at, atomic_operands_at, atomic_at, instruction_at};
ghost use Rattle.rv32_asm.specs.Seen.{code_of, target_of, IsSound, IsWithin};

use crate::code::{Code, Target};
use crate::mnemonic::{Atomic, Mnemonic, atomic_named, bits_named, mnemonic_named};
use crate::operands;
use crate::reader::{after_mark, name_in, register_in};
use rv32_decode::instr::{AluOp, BranchOp, ImmOp, Instr, LoadOp, StoreOp};

#[tactic(auto, unfolding(crate::specs::Operands::lui_at))]
fn lui(bytes: &[u8]) -> Option<(Code<'_>, &[u8])>
    ensures value { Gives (λ x. (code_of x.0, x.1.now)) result (lui_at bytes.now) }
    ensures sound { IfSome result (λ x. IsSound (code_of x.0)) }
{
    let ((rd, imm), rest) = operands::upper(bytes)?;
    Some((Code::Whole(Instr::Lui { rd, imm }), rest))
}

#[tactic(auto, unfolding(crate::specs::Operands::auipc_at))]
fn auipc(bytes: &[u8]) -> Option<(Code<'_>, &[u8])>
    ensures value { Gives (λ x. (code_of x.0, x.1.now)) result (auipc_at bytes.now) }
    ensures sound { IfSome result (λ x. IsSound (code_of x.0)) }
{
    let ((rd, imm), rest) = operands::upper(bytes)?;
    Some((Code::Whole(Instr::Auipc { rd, imm }), rest))
}

fn jump_to(rd: u8, target: Target<'_>) -> Code<'_>
    requires rd { rd < 32 }
    requires target { IsWithin 1048576 (target_of target) }
    ensures value { code_of result ≡ jump_of rd (target_of target.entry) }
    ensures sound { IsSound (code_of result) }
{
    match target {
        Target::Offset(offset) => Code::Whole(Instr::Jal { rd, offset }),
        Target::Name(name) => Code::JumpTo { rd, name },
    }
}

#[tactic(auto, unfolding(crate::specs::Operands::jal_at))]
fn jal(bytes: &[u8]) -> Option<(Code<'_>, &[u8])>
    ensures value { Gives (λ x. (code_of x.0, x.1.now)) result (jal_at bytes.now) }
    ensures sound { IfSome result (λ x. IsSound (code_of x.0)) }
{
    let (rd, rest) = register_in(bytes)?;
    let (target, rest) = operands::next_target(rest, 1 << 20)?;
    Some((jump_to(rd, target), rest))
}

#[tactic(auto, unfolding(crate::specs::Operands::jalr_at))]
fn jalr(bytes: &[u8]) -> Option<(Code<'_>, &[u8])>
    ensures value { Gives (λ x. (code_of x.0, x.1.now)) result (jalr_at bytes.now) }
    ensures sound { IfSome result (λ x. IsSound (code_of x.0)) }
{
    let ((rd, offset, rs1), rest) = operands::indexed(bytes)?;
    Some((Code::Whole(Instr::Jalr { rd, rs1, offset }), rest))
}

fn branch_to(op: BranchOp, rs1: u8, rs2: u8, target: Target<'_>) -> Code<'_>
    requires rs1 { rs1 < 32 }
    requires rs2 { rs2 < 32 }
    requires target { IsWithin 4096 (target_of target) }
    ensures value { code_of result ≡ branch_of op rs1 rs2 (target_of target.entry) }
    ensures sound { IsSound (code_of result) }
{
    match target {
        Target::Offset(offset) => Code::Whole(Instr::Branch {
            op,
            rs1,
            rs2,
            offset,
        }),
        Target::Name(name) => Code::BranchTo { op, rs1, rs2, name },
    }
}

#[tactic(auto, unfolding(crate::specs::Operands::branch_at))]
fn branch(op: BranchOp, bytes: &[u8]) -> Option<(Code<'_>, &[u8])>
    ensures value { Gives (λ x. (code_of x.0, x.1.now)) result (branch_at op bytes.now) }
    ensures sound { IfSome result (λ x. IsSound (code_of x.0)) }
{
    let ((rs1, rs2), rest) = operands::two_registers(bytes)?;
    let (target, rest) = operands::next_target(rest, 1 << 12)?;
    Some((branch_to(op, rs1, rs2, target), rest))
}

#[tactic(auto, unfolding(crate::specs::Operands::load_at))]
fn load(op: LoadOp, bytes: &[u8]) -> Option<(Code<'_>, &[u8])>
    ensures value { Gives (λ x. (code_of x.0, x.1.now)) result (load_at op bytes.now) }
    ensures sound { IfSome result (λ x. IsSound (code_of x.0)) }
{
    let ((rd, offset, rs1), rest) = operands::indexed(bytes)?;
    let load = Instr::Load {
        op,
        rd,
        rs1,
        offset,
    };
    Some((Code::Whole(load), rest))
}

#[tactic(auto, unfolding(crate::specs::Operands::store_at))]
fn store(op: StoreOp, bytes: &[u8]) -> Option<(Code<'_>, &[u8])>
    ensures value { Gives (λ x. (code_of x.0, x.1.now)) result (store_at op bytes.now) }
    ensures sound { IfSome result (λ x. IsSound (code_of x.0)) }
{
    let ((rs2, offset, rs1), rest) = operands::indexed(bytes)?;
    let store = Instr::Store {
        op,
        rs1,
        rs2,
        offset,
    };
    Some((Code::Whole(store), rest))
}

fn lowest(op: ImmOp) -> i32
    ensures { result ≡ lowest_of op }
{
    match op {
        ImmOp::Slli | ImmOp::Srli | ImmOp::Srai => 0,
        _ => -2048,
    }
}

fn highest(op: ImmOp) -> i32
    ensures { result ≡ highest_of op }
{
    match op {
        ImmOp::Slli | ImmOp::Srli | ImmOp::Srai => 31,
        _ => 2047,
    }
}

#[tactic(auto, unfolding(crate::specs::Operands::immediate_at))]
fn immediate(op: ImmOp, bytes: &[u8]) -> Option<(Code<'_>, &[u8])>
    ensures value { Gives (λ x. (code_of x.0, x.1.now)) result (immediate_at op bytes.now) }
    ensures sound { IfSome result (λ x. IsSound (code_of x.0)) }
{
    let ((rd, rs1), rest) = operands::two_registers(bytes)?;
    let (imm, rest) = operands::next_number(rest, lowest(op), highest(op))?;
    Some((Code::Whole(Instr::Imm { op, rd, rs1, imm }), rest))
}

#[tactic(auto, unfolding(crate::specs::Operands::operation_at))]
fn operation(op: AluOp, bytes: &[u8]) -> Option<(Code<'_>, &[u8])>
    ensures value { Gives (λ x. (code_of x.0, x.1.now)) result (operation_at op bytes.now) }
    ensures sound { IfSome result (λ x. IsSound (code_of x.0)) }
{
    let ((rd, rs1), rest) = operands::two_registers(bytes)?;
    let (rs2, rest) = operands::next_register(rest)?;
    Some((Code::Whole(Instr::Op { op, rd, rs1, rs2 }), rest))
}

#[tactic(auto, unfolding(crate::specs::Operands::fence_at))]
fn fence(bytes: &[u8]) -> Option<(Code<'_>, &[u8])>
    ensures value { Gives (λ x. (code_of x.0, x.1.now)) result (fence_at bytes.now) }
    ensures sound { IfSome result (λ x. IsSound (code_of x.0)) }
{
    let ((rd, rs1), rest) = operands::two_registers(bytes)?;
    let (imm, rest) = operands::next_unsigned(rest, 4095)?;
    Some((Code::Whole(Instr::Fence { rd, rs1, imm }), rest))
}

#[tactic(auto, unfolding(crate::specs::Operands::load_immediate_at))]
fn load_immediate(bytes: &[u8]) -> Option<(Code<'_>, &[u8])>
    ensures value { Gives (λ x. (code_of x.0, x.1.now)) result (load_immediate_at bytes.now) }
    ensures sound { IfSome result (λ x. IsSound (code_of x.0)) }
{
    let (rd, rest) = register_in(bytes)?;
    let (imm, rest) = operands::next_number(rest, -2048, 2047)?;
    let add = Instr::Imm {
        op: ImmOp::Addi,
        rd,
        rs1: 0,
        imm,
    };
    Some((Code::Whole(add), rest))
}

#[tactic(auto, unfolding(crate::specs::Operands::jump_at))]
fn jump(bytes: &[u8]) -> Option<(Code<'_>, &[u8])>
    ensures value { Gives (λ x. (code_of x.0, x.1.now)) result (jump_at bytes.now) }
    ensures sound { IfSome result (λ x. IsSound (code_of x.0)) }
{
    let (name, rest) = name_in(bytes)?;
    Some((Code::JumpTo { rd: 0, name }, rest))
}

#[tactic(auto, unfolding(crate::specs::Operands::load_address_at))]
fn load_address(bytes: &[u8]) -> Option<(Code<'_>, &[u8])>
    ensures value { Gives (λ x. (code_of x.0, x.1.now)) result (load_address_at bytes.now) }
    ensures sound { IfSome result (λ x. IsSound (code_of x.0)) }
{
    let (rd, rest) = register_in(bytes)?;
    let (name, rest) = name_in(after_mark(rest, b',')?)?;
    Some((Code::AddressOf { rd, name }, rest))
}

/// The operands behind a mnemonic.
#[tactic(auto, unfolding(crate::specs::Operands::operands_at))]
fn operands_of(mnemonic: Mnemonic, bytes: &[u8]) -> Option<(Code<'_>, &[u8])>
    ensures value { Gives (λ x. (code_of x.0, x.1.now)) result (operands_at mnemonic bytes.now) }
    ensures sound { IfSome result (λ x. IsSound (code_of x.0)) }
{
    match mnemonic {
        Mnemonic::Lui => lui(bytes),
        Mnemonic::Auipc => auipc(bytes),
        Mnemonic::Jal => jal(bytes),
        Mnemonic::Jalr => jalr(bytes),
        Mnemonic::Branch(op) => branch(op, bytes),
        Mnemonic::Load(op) => load(op, bytes),
        Mnemonic::Store(op) => store(op, bytes),
        Mnemonic::Immediate(op) => immediate(op, bytes),
        Mnemonic::Register(op) => operation(op, bytes),
        Mnemonic::Fence => fence(bytes),
        Mnemonic::Ecall => Some((Code::Whole(Instr::Ecall), bytes)),
        Mnemonic::Ebreak => Some((Code::Whole(Instr::Ebreak), bytes)),
        Mnemonic::LoadImmediate => load_immediate(bytes),
        Mnemonic::Jump => jump(bytes),
        Mnemonic::LoadAddress => load_address(bytes),
    }
}

#[tactic(auto, unfolding(crate::specs::Operands::load_reserved_at))]
fn load_reserved(aq: bool, rl: bool, bytes: &[u8]) -> Option<(Code<'_>, &[u8])>
    ensures value { Gives (λ x. (code_of x.0, x.1.now)) result (load_reserved_at aq rl bytes.now) }
    ensures sound { IfSome result (λ x. IsSound (code_of x.0)) }
{
    let (rd, rest) = register_in(bytes)?;
    let (rs1, rest) = operands::next_base(rest)?;
    Some((Code::Whole(Instr::LoadReserved { rd, rs1, aq, rl }), rest))
}

/// The operands behind an atomic operation with its bits aq and rl.
#[tactic(auto, unfolding(crate::specs::Operands::atomic_operands_at))]
fn atomic_operands(atomic: Atomic, aq: bool, rl: bool, bytes: &[u8]) -> Option<(Code<'_>, &[u8])>
    ensures value { Gives (λ x. (code_of x.0, x.1.now)) result (atomic_operands_at atomic aq rl bytes.now) }
    ensures sound { IfSome result (λ x. IsSound (code_of x.0)) }
{
    if atomic == Atomic::LoadReserved {
        return load_reserved(aq, rl, bytes);
    }
    let ((rd, rs2, rs1), rest) = operands::exchange(bytes)?;
    let instr = match atomic {
        Atomic::Amo(op) => Instr::Amo {
            op,
            rd,
            rs1,
            rs2,
            aq,
            rl,
        },
        _ => Instr::StoreConditional {
            rd,
            rs1,
            rs2,
            aq,
            rl,
        },
    };
    Some((Code::Whole(instr), rest))
}

#[tactic(auto, unfolding(crate::specs::Operands::atomic_at))]
fn atomic<'a>(word: &[u8], bytes: &'a [u8]) -> Option<(Code<'a>, &'a [u8])>
    ensures value { Gives (λ x. (code_of x.0, x.1.now)) result (atomic_at word.now bytes.now) }
    ensures sound { IfSome result (λ x. IsSound (code_of x.0)) }
{
    let (atomic, bits) = atomic_named(word)?;
    let (aq, rl) = bits_named(bits)?;
    atomic_operands(atomic, aq, rl, bytes)
}

/// The instruction that begins with this word.
#[tactic(auto, unfolding(crate::specs::Operands::instruction_at))]
pub(crate) fn instruction<'a>(word: &[u8], bytes: &'a [u8]) -> Option<(Code<'a>, &'a [u8])>
    ensures value { Gives (λ x. (code_of x.0, x.1.now)) result (instruction_at word.now bytes.now) }
    ensures sound { IfSome result (λ x. IsSound (code_of x.0)) }
{
    match mnemonic_named(word) {
        Some(mnemonic) => operands_of(mnemonic, bytes),
        None => atomic(word, bytes),
    }
}
