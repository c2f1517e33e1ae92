//! From instructions to words.
ghost use Rattle.std.specs.Prelude.{◌≡◌, ◌+◌, ◌*◌, ◌^◌, ◌<◌, ◌≢◌, if◌then◌else◌};
ghost use Rattle.rv32_decode.specs.Table.{decode_of, op_at, branches, loads, stores, immediates, shifts, register_codes, amos};
ghost use Rattle.rv32_decode.specs.Valid.{IsValid, is_shift};

use crate::formats;
use crate::instr::{AluOp, AmoOp, BranchOp, ImmOp, Instr, LoadOp, StoreOp};

/// The word of an instruction that has one.
#[tactic(auto, using(crate::proofs::Groups::groups))]
pub fn encode(i: &Instr) -> u32
    requires { IsValid i.now }
    ensures { decode_of result ≡ Some i.now }
{
    match *i {
        Instr::Lui { rd, imm } => encode_lui(rd, imm),
        Instr::Auipc { rd, imm } => encode_auipc(rd, imm),
        Instr::Jal { rd, offset } => encode_jal(rd, offset),
        Instr::Jalr { rd, rs1, offset } => encode_jalr(rd, rs1, offset),
        Instr::Branch {
            op,
            rs1,
            rs2,
            offset,
        } => encode_branch(op, rs1, rs2, offset),
        Instr::Load {
            op,
            rd,
            rs1,
            offset,
        } => encode_load(op, rd, rs1, offset),
        Instr::Store {
            op,
            rs1,
            rs2,
            offset,
        } => encode_store(op, rs1, rs2, offset),
        Instr::Imm { op, rd, rs1, imm } => encode_immediate(op, rd, rs1, imm),
        Instr::Op { op, rd, rs1, rs2 } => encode_register(op, rd, rs1, rs2),
        Instr::Fence { rd, rs1, imm } => encode_fence(rd, rs1, imm),
        Instr::Ecall => 0x0000_0073,
        Instr::Ebreak => 0x0010_0073,
        Instr::LoadReserved { rd, rs1, aq, rl } => encode_load_reserved(rd, rs1, aq, rl),
        Instr::StoreConditional {
            rd,
            rs1,
            rs2,
            aq,
            rl,
        } => encode_store_conditional(rd, rs1, rs2, aq, rl),
        Instr::Amo {
            op,
            rd,
            rs1,
            rs2,
            aq,
            rl,
        } => encode_amo(op, rd, rs1, rs2, aq, rl),
    }
}

#[tactic(auto, using(crate::proofs::Groups::groups))]
fn encode_lui(rd: u8, imm: u32) -> u32
    requires { IsValid (Instr.Lui rd imm) }
    ensures { decode_of result ≡ Some (Instr.Lui rd imm) }
{
    formats::u_word(0b011_0111, rd, imm)
}

#[tactic(auto, using(crate::proofs::Groups::groups))]
fn encode_auipc(rd: u8, imm: u32) -> u32
    requires { IsValid (Instr.Auipc rd imm) }
    ensures { decode_of result ≡ Some (Instr.Auipc rd imm) }
{
    formats::u_word(0b001_0111, rd, imm)
}

#[tactic(auto, using(crate::proofs::Groups::groups))]
fn encode_jal(rd: u8, offset: i32) -> u32
    requires { IsValid (Instr.Jal rd offset) }
    ensures { decode_of result ≡ Some (Instr.Jal rd offset) }
{
    formats::j_word(rd, offset)
}

#[tactic(auto, using(crate::proofs::Groups::groups))]
fn encode_jalr(rd: u8, rs1: u8, offset: i32) -> u32
    requires { IsValid (Instr.Jalr rd rs1 offset) }
    ensures { decode_of result ≡ Some (Instr.Jalr rd rs1 offset) }
{
    formats::i_word(0b110_0111, rd, 0b000, rs1, formats::twelve_bits(offset))
}

#[tactic(auto, using(crate::proofs::Groups::groups))]
fn encode_branch(op: BranchOp, rs1: u8, rs2: u8, offset: i32) -> u32
    requires { IsValid (Instr.Branch op rs1 rs2 offset) }
    ensures { decode_of result ≡ Some (Instr.Branch op rs1 rs2 offset) }
{
    formats::b_word(branch_funct3(op), rs1, rs2, offset)
}

fn branch_funct3(op: BranchOp) -> u32
    ensures bound { result < 8 }
    ensures code { op_at branches (result * 2 ^ 12 + 0x63) ≡ Some op }
{
    match op {
        BranchOp::Beq => 0b000,
        BranchOp::Bne => 0b001,
        BranchOp::Blt => 0b100,
        BranchOp::Bge => 0b101,
        BranchOp::Bltu => 0b110,
        BranchOp::Bgeu => 0b111,
    }
}

#[tactic(auto, using(crate::proofs::Groups::groups))]
fn encode_load(op: LoadOp, rd: u8, rs1: u8, offset: i32) -> u32
    requires { IsValid (Instr.Load op rd rs1 offset) }
    ensures { decode_of result ≡ Some (Instr.Load op rd rs1 offset) }
{
    formats::i_word(
        0b000_0011,
        rd,
        load_funct3(op),
        rs1,
        formats::twelve_bits(offset),
    )
}

fn load_funct3(op: LoadOp) -> u32
    ensures bound { result < 8 }
    ensures code { op_at loads (result * 2 ^ 12 + 0x03) ≡ Some op }
{
    match op {
        LoadOp::Lb => 0b000,
        LoadOp::Lh => 0b001,
        LoadOp::Lw => 0b010,
        LoadOp::Lbu => 0b100,
        LoadOp::Lhu => 0b101,
    }
}

#[tactic(auto, using(crate::proofs::Groups::groups))]
fn encode_store(op: StoreOp, rs1: u8, rs2: u8, offset: i32) -> u32
    requires { IsValid (Instr.Store op rs1 rs2 offset) }
    ensures { decode_of result ≡ Some (Instr.Store op rs1 rs2 offset) }
{
    formats::s_word(store_funct3(op), rs1, rs2, offset)
}

fn store_funct3(op: StoreOp) -> u32
    ensures bound { result < 8 }
    ensures code { op_at stores (result * 2 ^ 12 + 0x23) ≡ Some op }
{
    match op {
        StoreOp::Sb => 0b000,
        StoreOp::Sh => 0b001,
        StoreOp::Sw => 0b010,
    }
}

#[tactic(auto, using(crate::proofs::Groups::groups))]
fn encode_immediate(op: ImmOp, rd: u8, rs1: u8, imm: i32) -> u32
    requires { IsValid (Instr.Imm op rd rs1 imm) }
    ensures { decode_of result ≡ Some (Instr.Imm op rd rs1 imm) }
{
    let (funct7, funct3) = immediate_functs(op);
    if is_shift(op) {
        formats::r_word(0b001_0011, rd, funct3, rs1, imm as u8, funct7)
    } else {
        formats::i_word(0b001_0011, rd, funct3, rs1, formats::twelve_bits(imm))
    }
}

fn is_shift(op: ImmOp) -> bool
    ensures { result ≡ is_shift op }
{
    matches!(op, ImmOp::Slli | ImmOp::Srli | ImmOp::Srai)
}

fn immediate_functs(op: ImmOp) -> (u32, u32)
    ensures funct7 { result.0 < 2 ^ 7 }
    ensures funct3 { result.1 < 8 }
    ensures immediate { op_at immediates (result.1 * 2 ^ 12 + 0x13) ≡ (if is_shift op then None else Some op) }
    ensures shift { op_at shifts (result.0 * 2 ^ 25 + result.1 * 2 ^ 12 + 0x13) ≡ (if is_shift op then Some op else None) }
{
    match op {
        ImmOp::Addi => (0b000_0000, 0b000),
        ImmOp::Slti => (0b000_0000, 0b010),
        ImmOp::Sltiu => (0b000_0000, 0b011),
        ImmOp::Xori => (0b000_0000, 0b100),
        ImmOp::Ori => (0b000_0000, 0b110),
        ImmOp::Andi => (0b000_0000, 0b111),
        ImmOp::Slli => (0b000_0000, 0b001),
        ImmOp::Srli => (0b000_0000, 0b101),
        ImmOp::Srai => (0b010_0000, 0b101),
    }
}

#[tactic(auto, using(crate::proofs::Groups::groups))]
fn encode_register(op: AluOp, rd: u8, rs1: u8, rs2: u8) -> u32
    requires { IsValid (Instr.Op op rd rs1 rs2) }
    ensures { decode_of result ≡ Some (Instr.Op op rd rs1 rs2) }
{
    let (funct7, funct3) = register_functs(op);
    formats::r_word(0b011_0011, rd, funct3, rs1, rs2, funct7)
}

fn register_functs(op: AluOp) -> (u32, u32)
    ensures funct7 { result.0 < 2 ^ 7 }
    ensures funct3 { result.1 < 8 }
    ensures code { op_at register_codes (result.0 * 2 ^ 25 + result.1 * 2 ^ 12 + 0x33) ≡ Some op }
{
    match op {
        AluOp::Add => (0b000_0000, 0b000),
        AluOp::Sll => (0b000_0000, 0b001),
        AluOp::Slt => (0b000_0000, 0b010),
        AluOp::Sltu => (0b000_0000, 0b011),
        AluOp::Xor => (0b000_0000, 0b100),
        AluOp::Srl => (0b000_0000, 0b101),
        AluOp::Or => (0b000_0000, 0b110),
        AluOp::And => (0b000_0000, 0b111),
        AluOp::Sub => (0b010_0000, 0b000),
        AluOp::Sra => (0b010_0000, 0b101),
        AluOp::Mul => (0b000_0001, 0b000),
        AluOp::Mulh => (0b000_0001, 0b001),
        AluOp::Mulhsu => (0b000_0001, 0b010),
        AluOp::Mulhu => (0b000_0001, 0b011),
        AluOp::Div => (0b000_0001, 0b100),
        AluOp::Divu => (0b000_0001, 0b101),
        AluOp::Rem => (0b000_0001, 0b110),
        AluOp::Remu => (0b000_0001, 0b111),
    }
}

#[tactic(auto, using(crate::proofs::Groups::groups))]
fn encode_fence(rd: u8, rs1: u8, imm: u32) -> u32
    requires { IsValid (Instr.Fence rd rs1 imm) }
    ensures { decode_of result ≡ Some (Instr.Fence rd rs1 imm) }
{
    formats::i_word(0b000_1111, rd, 0b000, rs1, imm)
}

#[tactic(auto, using(crate::proofs::Groups::groups))]
fn encode_load_reserved(rd: u8, rs1: u8, aq: bool, rl: bool) -> u32
    requires { IsValid (Instr.LoadReserved rd rs1 aq rl) }
    ensures { decode_of result ≡ Some (Instr.LoadReserved rd rs1 aq rl) }
{
    formats::atomic_word(0b00010, rd, rs1, 0, aq, rl)
}

#[tactic(auto, using(crate::proofs::Groups::groups))]
fn encode_store_conditional(rd: u8, rs1: u8, rs2: u8, aq: bool, rl: bool) -> u32
    requires { IsValid (Instr.StoreConditional rd rs1 rs2 aq rl) }
    ensures { decode_of result ≡ Some (Instr.StoreConditional rd rs1 rs2 aq rl) }
{
    formats::atomic_word(0b00011, rd, rs1, rs2, aq, rl)
}

#[tactic(auto, using(crate::proofs::Groups::groups))]
fn encode_amo(op: AmoOp, rd: u8, rs1: u8, rs2: u8, aq: bool, rl: bool) -> u32
    requires { IsValid (Instr.Amo op rd rs1 rs2 aq rl) }
    ensures { decode_of result ≡ Some (Instr.Amo op rd rs1 rs2 aq rl) }
{
    formats::atomic_word(amo_funct5(op), rd, rs1, rs2, aq, rl)
}

fn amo_funct5(op: AmoOp) -> u32
    ensures bound { result < 32 }
    ensures not_load_reserved { result ≢ 2 }
    ensures not_store_conditional { result ≢ 3 }
    ensures code { op_at amos (result * 2 ^ 27 + 0x202f) ≡ Some op }
{
    match op {
        AmoOp::Swap => 0b00001,
        AmoOp::Add => 0b00000,
        AmoOp::Xor => 0b00100,
        AmoOp::And => 0b01100,
        AmoOp::Or => 0b01000,
        AmoOp::Min => 0b10000,
        AmoOp::Max => 0b10100,
        AmoOp::Minu => 0b11000,
        AmoOp::Maxu => 0b11100,
    }
}
