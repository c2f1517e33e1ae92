//! Words by format (RISC-V unprivileged ISA, "Base Instruction Formats").
ghost use Rattle.std.specs.Prelude.{◌≡◌, ◌%◌, ◌^◌, ◌<◌};
ghost use Rattle.rv32_decode.specs.Fields.{opcode_of, rd_of, funct3_of, rs1_of, rs2_of, funct5_of, funct7_of, aq_of, rl_of, immediate_s, immediate_b, immediate_u, immediate_j, bits, sign_extended};
ghost use Rattle.rv32_decode.specs.Valid.{FitsTwelveBits, IsBranchOffset, IsJumpOffset, IsUpperImmediate};

/// The six fields in their places. The formats I, S and B cut up the places of rd, rs2 and funct7.
pub(crate) fn r_word(opcode: u32, rd: u8, funct3: u32, rs1: u8, rs2: u8, funct7: u32) -> u32
    requires opcode { opcode < 2 ^ 7 }
    requires rd { rd < 32 }
    requires funct3 { funct3 < 8 }
    requires rs1 { rs1 < 32 }
    requires rs2 { rs2 < 32 }
    requires funct7 { funct7 < 2 ^ 7 }
    ensures opcode { opcode_of result ≡ opcode }
    ensures rd { rd_of result ≡ rd }
    ensures funct3 { funct3_of result ≡ funct3 }
    ensures rs1 { rs1_of result ≡ rs1 }
    ensures rs2 { rs2_of result ≡ rs2 }
    ensures funct7 { funct7_of result ≡ funct7 }
{
    opcode
        + (u32::from(rd) << 7)
        + (funct3 << 12)
        + (u32::from(rs1) << 15)
        + (u32::from(rs2) << 20)
        + (funct7 << 25)
}

/// The upper twelve bits hold the immediate.
pub(crate) fn i_word(opcode: u32, rd: u8, funct3: u32, rs1: u8, immediate: u32) -> u32
    requires opcode { opcode < 2 ^ 7 }
    requires rd { rd < 32 }
    requires funct3 { funct3 < 8 }
    requires rs1 { rs1 < 32 }
    requires immediate { immediate < 2 ^ 12 }
    ensures opcode { opcode_of result ≡ opcode }
    ensures rd { rd_of result ≡ rd }
    ensures funct3 { funct3_of result ≡ funct3 }
    ensures rs1 { rs1_of result ≡ rs1 }
    ensures immediate { bits 31 20 result ≡ immediate }
{
    r_word(
        opcode,
        rd,
        funct3,
        rs1,
        (immediate & 0x1f) as u8,
        immediate >> 5,
    )
}

/// The twelve bits of an immediate of the formats I and S.
pub(crate) fn twelve_bits(immediate: i32) -> u32
    requires { FitsTwelveBits immediate }
    ensures bound { result < 2 ^ 12 }
    ensures value { sign_extended 12 result ≡ immediate }
{
    immediate.cast_unsigned() & 0xfff
}

pub(crate) fn s_word(funct3: u32, rs1: u8, rs2: u8, offset: i32) -> u32
    requires funct3 { funct3 < 8 }
    requires rs1 { rs1 < 32 }
    requires rs2 { rs2 < 32 }
    requires offset { FitsTwelveBits offset }
    ensures opcode { opcode_of result ≡ 0x23 }
    ensures funct3 { funct3_of result ≡ funct3 }
    ensures rs1 { rs1_of result ≡ rs1 }
    ensures rs2 { rs2_of result ≡ rs2 }
    ensures offset { immediate_s result ≡ offset }
{
    let bits = twelve_bits(offset);
    r_word(0b010_0011, (bits & 0x1f) as u8, funct3, rs1, rs2, bits >> 5)
}

/// The thirteen bits of an offset, of which the lowest is 0.
fn branch_bits(offset: i32) -> u32
    requires { IsBranchOffset offset }
    ensures bound { result < 2 ^ 13 }
    ensures even { result % 2 ≡ 0 }
    ensures value { sign_extended 13 result ≡ offset }
{
    offset.cast_unsigned() & 0x1fff
}

pub(crate) fn b_word(funct3: u32, rs1: u8, rs2: u8, offset: i32) -> u32
    requires funct3 { funct3 < 8 }
    requires rs1 { rs1 < 32 }
    requires rs2 { rs2 < 32 }
    requires offset { IsBranchOffset offset }
    ensures opcode { opcode_of result ≡ 0x63 }
    ensures funct3 { funct3_of result ≡ funct3 }
    ensures rs1 { rs1_of result ≡ rs1 }
    ensures rs2 { rs2_of result ≡ rs2 }
    ensures offset { immediate_b result ≡ offset }
{
    let bits = branch_bits(offset);
    let low = (((bits >> 1) & 0xf) << 1) + ((bits >> 11) & 1);
    let high = ((bits >> 5) & 0x3f) + ((bits >> 12) << 6);
    r_word(0b110_0011, low as u8, funct3, rs1, rs2, high)
}

pub(crate) fn u_word(opcode: u32, rd: u8, immediate: u32) -> u32
    requires opcode { opcode < 2 ^ 7 }
    requires rd { rd < 32 }
    requires immediate { IsUpperImmediate immediate }
    ensures opcode { opcode_of result ≡ opcode }
    ensures rd { rd_of result ≡ rd }
    ensures immediate { immediate_u result ≡ immediate }
{
    opcode + (u32::from(rd) << 7) + immediate
}

/// The twenty-one bits of an offset, of which the lowest is 0.
fn jump_bits(offset: i32) -> u32
    requires { IsJumpOffset offset }
    ensures bound { result < 2 ^ 21 }
    ensures even { result % 2 ≡ 0 }
    ensures value { sign_extended 21 result ≡ offset }
{
    offset.cast_unsigned() & 0x1f_ffff
}

pub(crate) fn j_word(rd: u8, offset: i32) -> u32
    requires rd { rd < 32 }
    requires offset { IsJumpOffset offset }
    ensures opcode { opcode_of result ≡ 0x6f }
    ensures rd { rd_of result ≡ rd }
    ensures offset { immediate_j result ≡ offset }
{
    let bits = jump_bits(offset);
    let upper = ((bits >> 12) & 0xff)
        + (((bits >> 11) & 1) << 8)
        + (((bits >> 1) & 0x3ff) << 9)
        + ((bits >> 20) << 19);
    0b110_1111 + (u32::from(rd) << 7) + (upper << 12)
}

/// The two orderings stand below the code of the operation.
pub(crate) fn atomic_word(funct5: u32, rd: u8, rs1: u8, rs2: u8, aq: bool, rl: bool) -> u32
    requires funct5 { funct5 < 32 }
    requires rd { rd < 32 }
    requires rs1 { rs1 < 32 }
    requires rs2 { rs2 < 32 }
    ensures opcode { opcode_of result ≡ 0x2f }
    ensures funct3 { funct3_of result ≡ 2 }
    ensures funct5 { funct5_of result ≡ funct5 }
    ensures rd { rd_of result ≡ rd }
    ensures rs1 { rs1_of result ≡ rs1 }
    ensures rs2 { rs2_of result ≡ rs2 }
    ensures aq { aq_of result ≡ aq }
    ensures rl { rl_of result ≡ rl }
{
    let funct7 = (funct5 << 2) + (u32::from(aq) << 1) + u32::from(rl);
    r_word(0b010_1111, rd, 0b010, rs1, rs2, funct7)
}
