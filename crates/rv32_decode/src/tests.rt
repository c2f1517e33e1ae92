//! Words from listings of GNU `as` and `objdump`.
use super::*;
use crate::instr::{AluOp, AmoOp, BranchOp, ImmOp, Instr, LoadOp, StoreOp};

#[test]
fn words_of_listings(rt: HostRuntime) {
    let listed = [
        // lui a0,0xfffff
        (
            0xfffff537,
            Instr::Lui {
                rd: 10,
                imm: 0xffff_f000,
            },
        ),
        // auipc t0,0x0
        (0x00000297, Instr::Auipc { rd: 5, imm: 0 }),
        // j .-4
        (0xffdff06f, Instr::Jal { rd: 0, offset: -4 }),
        // jal ra,.+2048
        (
            0x001000ef,
            Instr::Jal {
                rd: 1,
                offset: 2048,
            },
        ),
        // ret
        (
            0x00008067,
            Instr::Jalr {
                rd: 0,
                rs1: 1,
                offset: 0,
            },
        ),
        // bne a5,a4,.-12
        (
            0xfee79ae3,
            Instr::Branch {
                op: BranchOp::Bne,
                rs1: 15,
                rs2: 14,
                offset: -12,
            },
        ),
        // lw a5,-20(s0)
        (
            0xfec42783,
            Instr::Load {
                op: LoadOp::Lw,
                rd: 15,
                rs1: 8,
                offset: -20,
            },
        ),
        // sb a5,-17(s0)
        (
            0xfef407a3,
            Instr::Store {
                op: StoreOp::Sb,
                rs1: 8,
                rs2: 15,
                offset: -17,
            },
        ),
        // addi sp,sp,-16
        (
            0xff010113,
            Instr::Imm {
                op: ImmOp::Addi,
                rd: 2,
                rs1: 2,
                imm: -16,
            },
        ),
        // srai a5,a5,0x1
        (
            0x4017d793,
            Instr::Imm {
                op: ImmOp::Srai,
                rd: 15,
                rs1: 15,
                imm: 1,
            },
        ),
        // sub a0,a0,a1
        (
            0x40b50533,
            Instr::Op {
                op: AluOp::Sub,
                rd: 10,
                rs1: 10,
                rs2: 11,
            },
        ),
        // remu a0,a0,a1
        (
            0x02b57533,
            Instr::Op {
                op: AluOp::Remu,
                rd: 10,
                rs1: 10,
                rs2: 11,
            },
        ),
        // fence iorw,ow
        (
            0x0f50000f,
            Instr::Fence {
                rd: 0,
                rs1: 0,
                imm: 0x0f5,
            },
        ),
        (0x00000073, Instr::Ecall),
        (0x00100073, Instr::Ebreak),
        // lr.w t0,(a0)
        (
            0x100522af,
            Instr::LoadReserved {
                rd: 5,
                rs1: 10,
                aq: false,
                rl: false,
            },
        ),
        // sc.w a0,a2,(a1)
        (
            0x18c5a52f,
            Instr::StoreConditional {
                rd: 10,
                rs1: 11,
                rs2: 12,
                aq: false,
                rl: false,
            },
        ),
        // amoswap.w.aq a5,a5,(s1)
        (
            0x0cf4a7af,
            Instr::Amo {
                op: AmoOp::Swap,
                rd: 15,
                rs1: 9,
                rs2: 15,
                aq: true,
                rl: false,
            },
        ),
        // amomaxu.w.rl a0,a1,(a2)
        (
            0xe2b6252f,
            Instr::Amo {
                op: AmoOp::Maxu,
                rd: 10,
                rs1: 12,
                rs2: 11,
                aq: false,
                rl: true,
            },
        ),
    ];
    for (word, instruction) in listed {
        assert_eq!(rt; decode(word), Some(instruction), "{word:#010x}");
    }
}

#[test]
fn words_that_are_no_instruction(rt: HostRuntime) {
    let others = [
        0x00000000, 0xffffffff, 0x00000001, // c.nop
        0x00008082, // c.jr ra
        0x00009067, // jalr with funct3 001
        0x00052063, // a branch with funct3 010
        0x00813083, // ld ra,8(sp)
        0x00113423, // sd ra,8(sp)
        0x02079793, // slli a5,a5,0x20
        0x0207d793, // srli a5,a5,0x20
        0x40b51533, // sll with funct7 0100000
        0x00b5053b, // addw a0,a0,a1
        0x0000100f, // fence.i
        0x30200073, // mret
        0x34051573, // csrrw a0,mscratch,a0
        0x1015a52f, // lr.w with rs2 1
        0x1005b52f, // lr.d a0,(a1)
        0x28b6252f, // amocas.w a0,a1,(a2)
    ];
    for word in others {
        assert_eq!(rt; decode(word), None, "{word:#010x}");
    }
}

#[test]
fn words_encode_back(rt: HostRuntime) {
    for word in [
        0xfffff537, 0xffdff06f, 0xfee79ae3, 0xfec42783, 0xfef407a3, 0x4017d793, 0xe2b6252f,
    ] {
        if let Some(instruction) = decode(word) {
            assert_eq!(rt; encode(&instruction), word);
        }
    }
}
