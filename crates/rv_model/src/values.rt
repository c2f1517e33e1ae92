ghost use Rattle.std.specs.Prelude.{◌≡◌, ◌*◌, ◌≤◌, ◌^◌, ◌<◌, pos, ◌*ℤ◌, unsigned_abs, int_lt, if◌then◌else◌};
ghost use Rattle.rv_model.specs.Values.{alu_of, imm_of, operation_of, taken_of, amo_of, load_size, store_size, extended, plus_offset, to_signed, high_of};

use rv32_decode::instr::{AluOp, AmoOp, BranchOp, ImmOp, LoadOp, StoreOp};

/// A word and a signed offset, modulo 2^32.
#[tactic(auto, unfolding(crate::specs::Values::plus_offset))]
pub fn offset_by(word: u32, offset: i32) -> u32
    ensures { result ≡ plus_offset word offset }
{
    word.wrapping_add(offset.cast_unsigned())
}

fn signed_product(a: i32, b: i32) -> i64
    ensures value { result ≡ a *ℤ b }
    ensures bound { unsigned_abs result ≤ 2 ^ 62 }
{
    i64::from(a) * i64::from(b)
}

fn mixed_product(a: i32, b: u32) -> i64
    ensures value { result ≡ a *ℤ pos b }
    ensures bound { unsigned_abs result < 2 ^ 63 }
{
    i64::from(a) * i64::from(b)
}

fn high_word(product: i64) -> u32
    ensures { result ≡ high_of product }
{
    ((product >> 32) & 0xffff_ffff).cast_unsigned() as u32
}

/// DIV: rounds to zero; by zero all ones, and -2^31 by -1 is -2^31.
#[tactic(auto, unfolding(crate::specs::Values::alu_of))]
fn divide_signed(a: u32, b: u32) -> u32
    ensures { result ≡ alu_of AluOp.Div a b }
{
    if b == 0 {
        return u32::MAX;
    }
    a.cast_signed()
        .wrapping_div(b.cast_signed())
        .cast_unsigned()
}

/// REM: the sign of the dividend; by zero the dividend, and of -2^31 by -1 0.
#[tactic(auto, unfolding(crate::specs::Values::alu_of))]
fn remainder_signed(a: u32, b: u32) -> u32
    ensures { result ≡ alu_of AluOp.Rem a b }
{
    if b == 0 {
        return a;
    }
    a.cast_signed()
        .wrapping_rem(b.cast_signed())
        .cast_unsigned()
}

#[tactic(auto, unfolding(crate::specs::Values::alu_of))]
fn divide_unsigned(a: u32, b: u32) -> u32
    ensures { result ≡ alu_of AluOp.Divu a b }
{
    if b == 0 { u32::MAX } else { a / b }
}

#[tactic(auto, unfolding(crate::specs::Values::alu_of))]
fn remainder_unsigned(a: u32, b: u32) -> u32
    ensures { result ≡ alu_of AluOp.Remu a b }
{
    if b == 0 { a } else { a % b }
}

/// What an operation of two registers writes (RV32I, "Integer Register-Register Operations"; the extension
/// M). Shift amounts are the low five bits; a division by zero gives all ones, its remainder the dividend.
#[tactic(auto, unfolding(crate::specs::Values::alu_of))]
pub fn alu(op: AluOp, a: u32, b: u32) -> u32
    ensures { result ≡ alu_of op a b }
{
    match op {
        AluOp::Add => a.wrapping_add(b),
        AluOp::Sub => a.wrapping_sub(b),
        AluOp::Sll => a.wrapping_shl(b),
        AluOp::Slt => u32::from(a.cast_signed() < b.cast_signed()),
        AluOp::Sltu => u32::from(a < b),
        AluOp::Xor => a ^ b,
        AluOp::Srl => a.wrapping_shr(b),
        AluOp::Sra => (a.cast_signed() >> (b & 31)).cast_unsigned(),
        AluOp::Or => a | b,
        AluOp::And => a & b,
        AluOp::Mul => a.wrapping_mul(b),
        AluOp::Mulh => high_word(signed_product(a.cast_signed(), b.cast_signed())),
        AluOp::Mulhsu => high_word(mixed_product(a.cast_signed(), b)),
        AluOp::Mulhu => ((u64::from(a) * u64::from(b)) >> 32) as u32,
        AluOp::Div => divide_signed(a, b),
        AluOp::Divu => divide_unsigned(a, b),
        AluOp::Rem => remainder_signed(a, b),
        AluOp::Remu => remainder_unsigned(a, b),
    }
}

/// The operation of an immediate form.
fn operation(op: ImmOp) -> AluOp
    ensures { result ≡ operation_of op }
{
    match op {
        ImmOp::Addi => AluOp::Add,
        ImmOp::Slti => AluOp::Slt,
        ImmOp::Sltiu => AluOp::Sltu,
        ImmOp::Xori => AluOp::Xor,
        ImmOp::Ori => AluOp::Or,
        ImmOp::Andi => AluOp::And,
        ImmOp::Slli => AluOp::Sll,
        ImmOp::Srli => AluOp::Srl,
        ImmOp::Srai => AluOp::Sra,
    }
}

/// What an operation of a register and an immediate writes (RV32I, "Integer Register-Immediate
/// Instructions").
#[tactic(auto, unfolding(crate::specs::Values::imm_of))]
pub fn imm_alu(op: ImmOp, a: u32, imm: i32) -> u32
    ensures { result ≡ imm_of op a imm }
{
    alu(operation(op), a, imm.cast_unsigned())
}

/// Whether a branch is taken (RV32I, "Conditional Branches").
#[tactic(auto, unfolding(crate::specs::Values::taken_of))]
pub fn taken(op: BranchOp, a: u32, b: u32) -> bool
    ensures { result ≡ taken_of op a b }
{
    match op {
        BranchOp::Beq => a == b,
        BranchOp::Bne => a != b,
        BranchOp::Blt => a.cast_signed() < b.cast_signed(),
        BranchOp::Bge => a.cast_signed() >= b.cast_signed(),
        BranchOp::Bltu => a < b,
        BranchOp::Bgeu => a >= b,
    }
}

fn signed_min(a: u32, b: u32) -> u32
    ensures { result ≡ (if int_lt (to_signed a) (to_signed b) then a else b) }
{
    if a.cast_signed() < b.cast_signed() {
        a
    } else {
        b
    }
}

fn signed_max(a: u32, b: u32) -> u32
    ensures { result ≡ (if int_lt (to_signed a) (to_signed b) then b else a) }
{
    if a.cast_signed() < b.cast_signed() {
        b
    } else {
        a
    }
}

/// What an atomic memory operation stores, from the old word and a register (the extension A, "Atomic
/// Memory Operations").
#[tactic(auto, unfolding(crate::specs::Values::amo_of))]
pub fn amo(op: AmoOp, old: u32, b: u32) -> u32
    ensures { result ≡ amo_of op old b }
{
    match op {
        AmoOp::Swap => b,
        AmoOp::Add => old.wrapping_add(b),
        AmoOp::Xor => old ^ b,
        AmoOp::And => old & b,
        AmoOp::Or => old | b,
        AmoOp::Min => signed_min(old, b),
        AmoOp::Max => signed_max(old, b),
        AmoOp::Minu => old.min(b),
        AmoOp::Maxu => old.max(b),
    }
}

/// The word that a load puts into its register, from the number that its bytes spell (RV32I, "Load and
/// Store Instructions"): LB and LH repeat the sign.
#[tactic(auto, unfolding(crate::specs::Values::extended))]
pub fn extend(op: LoadOp, value: u32) -> u32
    requires { value < 2 ^ (8 * load_size op) }
    ensures { result ≡ extended op value }
{
    match op {
        LoadOp::Lb if value >= 0x80 => value + 0xffff_ff00,
        LoadOp::Lh if value >= 0x8000 => value + 0xffff_0000,
        LoadOp::Lb | LoadOp::Lh | LoadOp::Lw | LoadOp::Lbu | LoadOp::Lhu => value,
    }
}

/// The number of bytes that a load moves.
pub fn load_size(op: LoadOp) -> u32
    ensures { result ≡ load_size op }
{
    match op {
        LoadOp::Lb | LoadOp::Lbu => 1,
        LoadOp::Lh | LoadOp::Lhu => 2,
        LoadOp::Lw => 4,
    }
}

/// The number of bytes that a store moves.
pub fn store_size(op: StoreOp) -> u32
    ensures { result ≡ store_size op }
{
    match op {
        StoreOp::Sb => 1,
        StoreOp::Sh => 2,
        StoreOp::Sw => 4,
    }
}
