//! The fields of an instruction word (RISC-V unprivileged ISA, "Base Instruction Formats").
ghost use Rattle.std.specs.Prelude.{◌≡◌, ◌<◌};
ghost use Rattle.rv32_decode.specs.Fields.{opcode_of, rd_of, funct3_of, rs1_of, rs2_of, funct5_of, funct7_of, aq_of, rl_of, immediate_i, immediate_s, immediate_b, immediate_u, immediate_j, immediate_shift, immediate_fence};

pub(crate) fn opcode(word: u32) -> u32
    ensures { result ≡ opcode_of word }
{
    word & 0x7f
}

pub(crate) fn rd(word: u32) -> u8
    ensures value { result ≡ rd_of word }
    ensures register { result < 32 }
{
    ((word >> 7) & 0x1f) as u8
}

pub(crate) fn rs1(word: u32) -> u8
    ensures value { result ≡ rs1_of word }
    ensures register { result < 32 }
{
    ((word >> 15) & 0x1f) as u8
}

pub(crate) fn rs2(word: u32) -> u8
    ensures value { result ≡ rs2_of word }
    ensures register { result < 32 }
{
    ((word >> 20) & 0x1f) as u8
}

pub(crate) fn funct3(word: u32) -> u32
    ensures value { result ≡ funct3_of word }
    ensures bound { result < 8 }
{
    (word >> 12) & 0x7
}

pub(crate) fn funct5(word: u32) -> u32
    ensures value { result ≡ funct5_of word }
    ensures bound { result < 32 }
{
    word >> 27
}

pub(crate) fn funct7(word: u32) -> u32
    ensures value { result ≡ funct7_of word }
    ensures bound { result < 128 }
{
    word >> 25
}

pub(crate) fn aq(word: u32) -> bool
    ensures { result ≡ aq_of word }
{
    (word >> 26) & 1 == 1
}

pub(crate) fn rl(word: u32) -> bool
    ensures { result ≡ rl_of word }
{
    (word >> 25) & 1 == 1
}

/// The shift of a signed word carries the sign down.
pub(crate) fn i_immediate(word: u32) -> i32
    ensures value { result ≡ immediate_i word }
{
    word.cast_signed() >> 20
}

pub(crate) fn s_immediate(word: u32) -> i32
    ensures value { result ≡ immediate_s word }
{
    let high = (word.cast_signed() >> 25) << 5;
    let low = (word >> 7) & 0x1f;
    high + low.cast_signed()
}

pub(crate) fn b_immediate(word: u32) -> i32
    ensures value { result ≡ immediate_b word }
{
    let high = (word.cast_signed() >> 31) << 12;
    let low = (((word >> 7) & 1) << 11) + (((word >> 25) & 0x3f) << 5) + (((word >> 8) & 0xf) << 1);
    high + low.cast_signed()
}

pub(crate) fn u_immediate(word: u32) -> u32
    ensures value { result ≡ immediate_u word }
{
    word & 0xffff_f000
}

pub(crate) fn j_immediate(word: u32) -> i32
    ensures value { result ≡ immediate_j word }
{
    let high = (word.cast_signed() >> 31) << 20;
    let low = (((word >> 12) & 0xff) << 12)
        + (((word >> 20) & 1) << 11)
        + (((word >> 21) & 0x3ff) << 1);
    high + low.cast_signed()
}

/// The amount stands in the place of rs2.
pub(crate) fn shift_immediate(word: u32) -> i32
    ensures { result ≡ immediate_shift word }
{
    i32::from(rs2(word))
}

pub(crate) fn fence_immediate(word: u32) -> u32
    ensures { result ≡ immediate_fence word }
{
    word >> 20
}
