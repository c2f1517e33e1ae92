//! From words to instructions: by opcode, then by funct3 and what lies above it.
ghost use Rattle.std.specs.Prelude.{◌≡◌, ◌+◌, ◌*◌, ◌^◌, ◌<◌, ◌≢◌, IfSome};
ghost use Rattle.rv32_decode.specs.Fields.{opcode_of, funct3_of, funct5_of};
ghost use Rattle.rv32_decode.specs.Table.{decode_of, op_at, branches, loads, stores, immediates, shifts, register_codes, amos};
ghost use Rattle.rv32_decode.specs.Valid.{IsValid};

use crate::fields;
use crate::instr::{AluOp, AmoOp, BranchOp, ImmOp, Instr, LoadOp, StoreOp};

/// The instruction of a word, or none where the word fits no row of the table (RISC-V unprivileged ISA,
/// "RV32/64G Instruction Set Listings").
#[tactic(auto, using(crate::proofs::Groups::groups))]
pub fn decode(word: u32) -> Option<Instr>
    ensures table { result ≡ decode_of word }
    ensures valid { IfSome result IsValid }
{
    match fields::opcode(word) {
        0b011_0111 => Some(Instr::Lui {
            rd: fields::rd(word),
            imm: fields::u_immediate(word),
        }),
        0b001_0111 => Some(Instr::Auipc {
            rd: fields::rd(word),
            imm: fields::u_immediate(word),
        }),
        0b110_1111 => Some(Instr::Jal {
            rd: fields::rd(word),
            offset: fields::j_immediate(word),
        }),
        0b110_0111 => decode_jalr(word),
        0b110_0011 => decode_branch(word),
        0b000_0011 => decode_load(word),
        0b010_0011 => decode_store(word),
        0b001_0011 => decode_immediate(word),
        0b011_0011 => decode_register(word),
        0b000_1111 => decode_fence(word),
        0b111_0011 => decode_system(word),
        0b010_1111 => decode_atomic(word),
        _ => None,
    }
}

#[tactic(auto, using(crate::proofs::Groups::groups))]
fn decode_jalr(word: u32) -> Option<Instr>
    requires { opcode_of word ≡ 0x67 }
    ensures { result ≡ decode_of word }
{
    if fields::funct3(word) != 0 {
        return None;
    }
    Some(Instr::Jalr {
        rd: fields::rd(word),
        rs1: fields::rs1(word),
        offset: fields::i_immediate(word),
    })
}

#[tactic(auto, using(crate::proofs::Groups::groups))]
fn decode_fence(word: u32) -> Option<Instr>
    requires { opcode_of word ≡ 0x0f }
    ensures { result ≡ decode_of word }
{
    if fields::funct3(word) != 0 {
        return None;
    }
    Some(Instr::Fence {
        rd: fields::rd(word),
        rs1: fields::rs1(word),
        imm: fields::fence_immediate(word),
    })
}

#[tactic(auto, using(crate::proofs::Groups::groups))]
fn decode_system(word: u32) -> Option<Instr>
    requires { opcode_of word ≡ 0x73 }
    ensures { result ≡ decode_of word }
{
    match word {
        0x0000_0073 => Some(Instr::Ecall),
        0x0010_0073 => Some(Instr::Ebreak),
        _ => None,
    }
}

#[tactic(auto, using(crate::proofs::Groups::groups))]
fn decode_branch(word: u32) -> Option<Instr>
    requires { opcode_of word ≡ 0x63 }
    ensures { result ≡ decode_of word }
{
    let op = branch_op(fields::funct3(word))?;
    Some(Instr::Branch {
        op,
        rs1: fields::rs1(word),
        rs2: fields::rs2(word),
        offset: fields::b_immediate(word),
    })
}

fn branch_op(funct3: u32) -> Option<BranchOp>
    ensures { result ≡ op_at branches (funct3 * 2 ^ 12 + 0x63) }
{
    match funct3 {
        0b000 => Some(BranchOp::Beq),
        0b001 => Some(BranchOp::Bne),
        0b100 => Some(BranchOp::Blt),
        0b101 => Some(BranchOp::Bge),
        0b110 => Some(BranchOp::Bltu),
        0b111 => Some(BranchOp::Bgeu),
        _ => None,
    }
}

#[tactic(auto, using(crate::proofs::Groups::groups))]
fn decode_load(word: u32) -> Option<Instr>
    requires { opcode_of word ≡ 0x03 }
    ensures { result ≡ decode_of word }
{
    let op = load_op(fields::funct3(word))?;
    Some(Instr::Load {
        op,
        rd: fields::rd(word),
        rs1: fields::rs1(word),
        offset: fields::i_immediate(word),
    })
}

fn load_op(funct3: u32) -> Option<LoadOp>
    ensures { result ≡ op_at loads (funct3 * 2 ^ 12 + 0x03) }
{
    match funct3 {
        0b000 => Some(LoadOp::Lb),
        0b001 => Some(LoadOp::Lh),
        0b010 => Some(LoadOp::Lw),
        0b100 => Some(LoadOp::Lbu),
        0b101 => Some(LoadOp::Lhu),
        _ => None,
    }
}

#[tactic(auto, using(crate::proofs::Groups::groups))]
fn decode_store(word: u32) -> Option<Instr>
    requires { opcode_of word ≡ 0x23 }
    ensures { result ≡ decode_of word }
{
    let op = store_op(fields::funct3(word))?;
    Some(Instr::Store {
        op,
        rs1: fields::rs1(word),
        rs2: fields::rs2(word),
        offset: fields::s_immediate(word),
    })
}

fn store_op(funct3: u32) -> Option<StoreOp>
    ensures { result ≡ op_at stores (funct3 * 2 ^ 12 + 0x23) }
{
    match funct3 {
        0b000 => Some(StoreOp::Sb),
        0b001 => Some(StoreOp::Sh),
        0b010 => Some(StoreOp::Sw),
        _ => None,
    }
}

#[tactic(auto, using(crate::proofs::Groups::groups))]
fn decode_immediate(word: u32) -> Option<Instr>
    requires { opcode_of word ≡ 0x13 }
    ensures { result ≡ decode_of word }
{
    match immediate_op(fields::funct3(word)) {
        Some(op) => Some(Instr::Imm {
            op,
            rd: fields::rd(word),
            rs1: fields::rs1(word),
            imm: fields::i_immediate(word),
        }),
        None => decode_shift(word),
    }
}

fn immediate_op(funct3: u32) -> Option<ImmOp>
    ensures { result ≡ op_at immediates (funct3 * 2 ^ 12 + 0x13) }
{
    match funct3 {
        0b000 => Some(ImmOp::Addi),
        0b010 => Some(ImmOp::Slti),
        0b011 => Some(ImmOp::Sltiu),
        0b100 => Some(ImmOp::Xori),
        0b110 => Some(ImmOp::Ori),
        0b111 => Some(ImmOp::Andi),
        _ => None,
    }
}

#[tactic(auto, using(crate::proofs::Groups::groups))]
fn decode_shift(word: u32) -> Option<Instr>
    requires opcode { opcode_of word ≡ 0x13 }
    requires shift { op_at immediates (funct3_of word * 2 ^ 12 + 0x13) ≡ None }
    ensures { result ≡ decode_of word }
{
    let op = shift_op(fields::funct7(word), fields::funct3(word))?;
    Some(Instr::Imm {
        op,
        rd: fields::rd(word),
        rs1: fields::rs1(word),
        imm: fields::shift_immediate(word),
    })
}

fn shift_op(funct7: u32, funct3: u32) -> Option<ImmOp>
    requires { funct3 < 8 }
    ensures { result ≡ op_at shifts (funct7 * 2 ^ 25 + funct3 * 2 ^ 12 + 0x13) }
{
    match (funct7, funct3) {
        (0b000_0000, 0b001) => Some(ImmOp::Slli),
        (0b000_0000, 0b101) => Some(ImmOp::Srli),
        (0b010_0000, 0b101) => Some(ImmOp::Srai),
        _ => None,
    }
}

#[tactic(auto, using(crate::proofs::Groups::groups))]
fn decode_register(word: u32) -> Option<Instr>
    requires { opcode_of word ≡ 0x33 }
    ensures { result ≡ decode_of word }
{
    let op = register_op(fields::funct7(word), fields::funct3(word))?;
    Some(Instr::Op {
        op,
        rd: fields::rd(word),
        rs1: fields::rs1(word),
        rs2: fields::rs2(word),
    })
}

fn register_op(funct7: u32, funct3: u32) -> Option<AluOp>
    requires { funct3 < 8 }
    ensures { result ≡ op_at register_codes (funct7 * 2 ^ 25 + funct3 * 2 ^ 12 + 0x33) }
{
    match funct7 {
        0b000_0000 => base_op(funct3),
        0b010_0000 => alternate_op(funct3),
        0b000_0001 => multiply_op(funct3),
        _ => None,
    }
}

fn base_op(funct3: u32) -> Option<AluOp>
    requires { funct3 < 8 }
    ensures { result ≡ op_at register_codes (funct3 * 2 ^ 12 + 0x33) }
{
    match funct3 {
        0b000 => Some(AluOp::Add),
        0b001 => Some(AluOp::Sll),
        0b010 => Some(AluOp::Slt),
        0b011 => Some(AluOp::Sltu),
        0b100 => Some(AluOp::Xor),
        0b101 => Some(AluOp::Srl),
        0b110 => Some(AluOp::Or),
        0b111 => Some(AluOp::And),
        _ => None,
    }
}

fn alternate_op(funct3: u32) -> Option<AluOp>
    requires { funct3 < 8 }
    ensures { result ≡ op_at register_codes (0x20 * 2 ^ 25 + funct3 * 2 ^ 12 + 0x33) }
{
    match funct3 {
        0b000 => Some(AluOp::Sub),
        0b101 => Some(AluOp::Sra),
        _ => None,
    }
}

fn multiply_op(funct3: u32) -> Option<AluOp>
    requires { funct3 < 8 }
    ensures { result ≡ op_at register_codes (0x01 * 2 ^ 25 + funct3 * 2 ^ 12 + 0x33) }
{
    match funct3 {
        0b000 => Some(AluOp::Mul),
        0b001 => Some(AluOp::Mulh),
        0b010 => Some(AluOp::Mulhsu),
        0b011 => Some(AluOp::Mulhu),
        0b100 => Some(AluOp::Div),
        0b101 => Some(AluOp::Divu),
        0b110 => Some(AluOp::Rem),
        0b111 => Some(AluOp::Remu),
        _ => None,
    }
}

/// Every atomic instruction of RV32 has the width of a word.
#[tactic(auto, using(crate::proofs::Groups::groups))]
fn decode_atomic(word: u32) -> Option<Instr>
    requires { opcode_of word ≡ 0x2f }
    ensures { result ≡ decode_of word }
{
    if fields::funct3(word) != 0b010 {
        return None;
    }
    match fields::funct5(word) {
        0b00010 => decode_load_reserved(word),
        0b00011 => Some(Instr::StoreConditional {
            rd: fields::rd(word),
            rs1: fields::rs1(word),
            rs2: fields::rs2(word),
            aq: fields::aq(word),
            rl: fields::rl(word),
        }),
        _ => decode_amo(word),
    }
}

#[tactic(auto, using(crate::proofs::Groups::groups))]
fn decode_load_reserved(word: u32) -> Option<Instr>
    requires opcode { opcode_of word ≡ 0x2f }
    requires width { funct3_of word ≡ 2 }
    requires code { funct5_of word ≡ 2 }
    ensures { result ≡ decode_of word }
{
    if fields::rs2(word) != 0 {
        return None;
    }
    Some(Instr::LoadReserved {
        rd: fields::rd(word),
        rs1: fields::rs1(word),
        aq: fields::aq(word),
        rl: fields::rl(word),
    })
}

#[tactic(auto, using(crate::proofs::Groups::groups))]
fn decode_amo(word: u32) -> Option<Instr>
    requires opcode { opcode_of word ≡ 0x2f }
    requires width { funct3_of word ≡ 2 }
    requires not_load_reserved { funct5_of word ≢ 2 }
    requires not_store_conditional { funct5_of word ≢ 3 }
    ensures { result ≡ decode_of word }
{
    let op = amo_op(fields::funct5(word))?;
    Some(Instr::Amo {
        op,
        rd: fields::rd(word),
        rs1: fields::rs1(word),
        rs2: fields::rs2(word),
        aq: fields::aq(word),
        rl: fields::rl(word),
    })
}

fn amo_op(funct5: u32) -> Option<AmoOp>
    ensures { result ≡ op_at amos (funct5 * 2 ^ 27 + 0x202f) }
{
    match funct5 {
        0b00001 => Some(AmoOp::Swap),
        0b00000 => Some(AmoOp::Add),
        0b00100 => Some(AmoOp::Xor),
        0b01100 => Some(AmoOp::And),
        0b01000 => Some(AmoOp::Or),
        0b10000 => Some(AmoOp::Min),
        0b10100 => Some(AmoOp::Max),
        0b11000 => Some(AmoOp::Minu),
        0b11100 => Some(AmoOp::Maxu),
        _ => None,
    }
}
