//! Each instruction of the instruction table, at its edges. The words are those of an assembler; what they do
//! was worked out from the RISC-V unprivileged ISA, "RV32I" and the extensions M and A.

use crate::files::{DATA, TEXT};
use crate::stepping::{image_of, is_same, machine_of, step_of, thread_of};
use Change::{Branches, Conditional, Faults, Jumps, Links, Reserves, Sets, Stores, Swaps};
use odr_log::log::Cause;
use odr_log::log::Cause::{AmoFault, Breakpoint, Illegal, LoadFault, Misaligned, StoreFault};
use rv_model::state::{Halt, Note, Stepped, Thread};
use std::alloc::Global;
use std::process::Abort;
use std::test::Fail;

/// The least signed number.
const MIN: u32 = 0x8000_0000;

/// The greatest signed number.
const MAX: u32 = 0x7fff_ffff;

/// Minus one.
const ONES: u32 = 0xffff_ffff;

/// The word at `DATA`. After it come `MIN`, `MAX` and `ONES`, and two words that may only be read.
const WORD: u32 = 0x00ff_7f80;

/// What a step does to its thread and to memory.
#[derive(Clone, Copy)]
enum Change {
    /// Sets a register.
    Sets(u8, u32),
    /// Sets a register to the next pc, and goes to a target.
    Links(u8, u32),
    /// The same, and notes the target.
    Jumps(u8, u32),
    /// Notes an outcome, and goes on at a pc.
    Branches(bool, u32),
    /// Stores the low bytes of a2 from an address on.
    Stores(u32, usize),
    /// Sets a register, and stores a word at a1.
    Swaps(u8, u32, u32),
    /// Sets a0, and reserves the word at a1.
    Reserves(u32),
    /// Ends the reservation. Stores a2 at a1 and sets a0 to 0, or sets a0 to 1.
    Conditional(bool),
    /// Changes nothing but that the machine halts.
    Faults(Cause),
}

/// An instruction's word, a1 and a2 before it, and what it does. The thread has reserved the word at
/// `DATA + 4`.
type Row = (u32, u32, u32, Change);

static STEPS: [Row; 191] = [
    (0xfffff537, 0, 0, Sets(10, 0xffff_f000)), // lui a0, 0xfffff
    (0x80000537, 0, 0, Sets(10, MIN)), // lui a0, 0x80000
    (0x00001037, 0, 0, Sets(0, 0)), // lui zero, 1
    (0x00000517, 0, 0, Sets(10, TEXT)), // auipc a0, 0
    (0xfffff517, 0, 0, Sets(10, 0xf000)), // auipc a0, 0xfffff
    (0xffff0517, 0, 0, Sets(10, 0)), // auipc a0, 0xffff0
    (0x008000ef, 0, 0, Links(1, TEXT + 8)), // jal ra, 8
    (0x800000ef, 0, 0, Links(1, 0xfff1_0000)), // jal ra, -1048576
    (0x0000006f, 0, 0, Links(0, TEXT)), // jal zero, 0
    (0x002000ef, 0, 0, Faults(Misaligned)), // jal ra, 2
    (0x7ffff0ef, 0, 0, Faults(Misaligned)), // jal ra, 1048574
    (0x000580e7, TEXT + 9, 0, Jumps(1, TEXT + 8)), // jalr ra, 0(a1)
    (0xfff580e7, 0x2_0002, 0, Jumps(1, 0x2_0000)), // jalr ra, -1(a1)
    (0x004585e7, 0x2_0000, 0, Jumps(11, 0x2_0004)), // jalr a1, 4(a1)
    (0x7ff58067, 0xffff_f805, 0, Jumps(0, 4)), // jalr zero, 2047(a1)
    (0x000580e7, 0x2_0002, 0, Faults(Misaligned)), // jalr ra, 0(a1)
    (0x000580e7, 0x2_0003, 0, Faults(Misaligned)), // jalr ra, 0(a1)
    (0x00c58463, 7, 7, Branches(true, TEXT + 8)), // beq a1, a2, 8
    (0x00c58463, 7, 0x8000_0007, Branches(false, TEXT + 4)), // beq a1, a2, 8
    (0x00000263, 1, 2, Branches(true, TEXT + 4)), // beq zero, zero, 4
    (0x00c58163, 7, 7, Faults(Misaligned)), // beq a1, a2, 2
    (0x00c58163, 7, 8, Branches(false, TEXT + 4)), // beq a1, a2, 2
    (0x80c59063, 7, 8, Branches(true, 0xf000)), // bne a1, a2, -4096
    (0x7ec59fe3, 7, 8, Faults(Misaligned)), // bne a1, a2, 4094
    (0x7ec59fe3, 7, 7, Branches(false, TEXT + 4)), // bne a1, a2, 4094
    (0x00c5c463, MIN, MAX, Branches(true, TEXT + 8)), // blt a1, a2, 8
    (0x00c5c463, 0, ONES, Branches(false, TEXT + 4)), // blt a1, a2, 8
    (0x00c5c463, 5, 5, Branches(false, TEXT + 4)), // blt a1, a2, 8
    (0x00c5d463, MIN, MAX, Branches(false, TEXT + 4)), // bge a1, a2, 8
    (0x00c5d463, 0, ONES, Branches(true, TEXT + 8)), // bge a1, a2, 8
    (0x00c5d463, 5, 5, Branches(true, TEXT + 8)), // bge a1, a2, 8
    (0x00c5e463, MIN, MAX, Branches(false, TEXT + 4)), // bltu a1, a2, 8
    (0x00c5e463, 0, ONES, Branches(true, TEXT + 8)), // bltu a1, a2, 8
    (0x00c5e463, 5, 5, Branches(false, TEXT + 4)), // bltu a1, a2, 8
    (0x00c5f463, MIN, MAX, Branches(true, TEXT + 8)), // bgeu a1, a2, 8
    (0x00c5f463, 0, ONES, Branches(false, TEXT + 4)), // bgeu a1, a2, 8
    (0x00c5f463, 5, 5, Branches(true, TEXT + 8)), // bgeu a1, a2, 8
    (0xfff58513, 0, 0, Sets(10, ONES)), // addi a0, a1, -1
    (0x80058513, MIN, 0, Sets(10, 0x7fff_f800)), // addi a0, a1, -2048
    (0x7ff58513, 0xffff_f801, 0, Sets(10, 0)), // addi a0, a1, 2047
    (0x00558013, 1, 0, Sets(0, 0)), // addi zero, a1, 5
    (0x00500513, 1, 0, Sets(10, 5)), // addi a0, zero, 5
    (0x0005a513, ONES, 0, Sets(10, 1)), // slti a0, a1, 0
    (0x8005a513, 0xffff_f800, 0, Sets(10, 0)), // slti a0, a1, -2048
    (0x7ff5a513, MIN, 0, Sets(10, 1)), // slti a0, a1, 2047
    (0xfff5b513, 5, 0, Sets(10, 1)), // sltiu a0, a1, -1
    (0x0015b513, 0, 0, Sets(10, 1)), // sltiu a0, a1, 1
    (0xfff5b513, ONES, 0, Sets(10, 0)), // sltiu a0, a1, -1
    (0xfff5c513, 0xf0f_f0f0, 0, Sets(10, 0xf0f0_0f0f)), // xori a0, a1, -1
    (0x8005e513, 0x123, 0, Sets(10, 0xffff_f923)), // ori a0, a1, -2048
    (0xff05f513, ONES, 0, Sets(10, 0xffff_fff0)), // andi a0, a1, -16
    (0x7ff5f513, 0xffff_fabc, 0, Sets(10, 0x2bc)), // andi a0, a1, 2047
    (0x01f59513, 3, 0, Sets(10, MIN)), // slli a0, a1, 31
    (0x00059513, 0x1234_5678, 0, Sets(10, 0x1234_5678)), // slli a0, a1, 0
    (0x01f5d513, MIN, 0, Sets(10, 1)), // srli a0, a1, 31
    (0x0015d513, 0x8000_0001, 0, Sets(10, 0x4000_0000)), // srli a0, a1, 1
    (0x41f5d513, MIN, 0, Sets(10, ONES)), // srai a0, a1, 31
    (0x4015d513, 0x8000_0001, 0, Sets(10, 0xc000_0000)), // srai a0, a1, 1
    (0x41f5d513, MAX, 0, Sets(10, 0)), // srai a0, a1, 31
    (0x00c58533, ONES, 2, Sets(10, 1)), // add a0, a1, a2
    (0x00b585b3, 0x8000_0001, 0, Sets(11, 2)), // add a1, a1, a1
    (0x00c58033, 1, 2, Sets(0, 0)), // add zero, a1, a2
    (0x40c58533, 0, 1, Sets(10, ONES)), // sub a0, a1, a2
    (0x40c58533, MIN, 1, Sets(10, MAX)), // sub a0, a1, a2
    (0x00c59533, 1, 31, Sets(10, MIN)), // sll a0, a1, a2
    (0x00c59533, 0x8000_0001, 33, Sets(10, 2)), // sll a0, a1, a2
    (0x00c59533, 0x1234_5678, 0xffff_ffe0, Sets(10, 0x1234_5678)), // sll a0, a1, a2
    (0x00c5a533, MIN, MAX, Sets(10, 1)), // slt a0, a1, a2
    (0x00c5a533, 0, ONES, Sets(10, 0)), // slt a0, a1, a2
    (0x00c5a533, 5, 5, Sets(10, 0)), // slt a0, a1, a2
    (0x00c5b533, MIN, MAX, Sets(10, 0)), // sltu a0, a1, a2
    (0x00c5b533, 0, ONES, Sets(10, 1)), // sltu a0, a1, a2
    (0x00c5b533, 5, 5, Sets(10, 0)), // sltu a0, a1, a2
    (0x00c5c533, 0xff00_ff00, 0xff0_0ff0, Sets(10, 0xf0f0_f0f0)), // xor a0, a1, a2
    (0x00c5d533, MIN, 31, Sets(10, 1)), // srl a0, a1, a2
    (0x00c5d533, MIN, 33, Sets(10, 0x4000_0000)), // srl a0, a1, a2
    (0x00c5d533, 0x8000_0001, 32, Sets(10, 0x8000_0001)), // srl a0, a1, a2
    (0x40c5d533, MIN, 31, Sets(10, ONES)), // sra a0, a1, a2
    (0x40c5d533, MIN, 33, Sets(10, 0xc000_0000)), // sra a0, a1, a2
    (0x40c5d533, 0x8000_0001, 0xffff_ffe0, Sets(10, 0x8000_0001)), // sra a0, a1, a2
    (0x40c5d533, MAX, 30, Sets(10, 1)), // sra a0, a1, a2
    (0x00c5e533, 0xff00_ff00, 0xff0_0ff0, Sets(10, 0xfff0_fff0)), // or a0, a1, a2
    (0x00c5f533, 0xff00_ff00, 0xff0_0ff0, Sets(10, 0xf00_0f00)), // and a0, a1, a2
    (0x02c58533, ONES, ONES, Sets(10, 1)), // mul a0, a1, a2
    (0x02c58533, TEXT, TEXT, Sets(10, 0)), // mul a0, a1, a2
    (0x02c58533, 0x8000_0001, 3, Sets(10, 0x8000_0003)), // mul a0, a1, a2
    (0x02c59533, ONES, ONES, Sets(10, 0)), // mulh a0, a1, a2
    (0x02c59533, MIN, MIN, Sets(10, 0x4000_0000)), // mulh a0, a1, a2
    (0x02c59533, MIN, MAX, Sets(10, 0xc000_0000)), // mulh a0, a1, a2
    (0x02c59533, ONES, 1, Sets(10, ONES)), // mulh a0, a1, a2
    (0x02c5a533, ONES, ONES, Sets(10, ONES)), // mulhsu a0, a1, a2
    (0x02c5a533, MIN, ONES, Sets(10, MIN)), // mulhsu a0, a1, a2
    (0x02c5a533, MAX, ONES, Sets(10, 0x7fff_fffe)), // mulhsu a0, a1, a2
    (0x02c5a533, 1, ONES, Sets(10, 0)), // mulhsu a0, a1, a2
    (0x02c5b533, ONES, ONES, Sets(10, 0xffff_fffe)), // mulhu a0, a1, a2
    (0x02c5b533, MIN, 2, Sets(10, 1)), // mulhu a0, a1, a2
    (0x02c5c533, 0xffff_fff9, 2, Sets(10, 0xffff_fffd)), // div a0, a1, a2
    (0x02c5c533, 7, 0xffff_fffe, Sets(10, 0xffff_fffd)), // div a0, a1, a2
    (0x02c5c533, 0xffff_fff9, 0xffff_fffe, Sets(10, 3)), // div a0, a1, a2
    (0x02c5c533, 7, 0, Sets(10, ONES)), // div a0, a1, a2
    (0x02c5c533, MIN, 0, Sets(10, ONES)), // div a0, a1, a2
    (0x02c5c533, MIN, ONES, Sets(10, MIN)), // div a0, a1, a2
    (0x02c5d533, ONES, 2, Sets(10, MAX)), // divu a0, a1, a2
    (0x02c5d533, 7, 0, Sets(10, ONES)), // divu a0, a1, a2
    (0x02c5d533, MIN, ONES, Sets(10, 0)), // divu a0, a1, a2
    (0x02c5e533, 0xffff_fff9, 2, Sets(10, ONES)), // rem a0, a1, a2
    (0x02c5e533, 7, 0xffff_fffe, Sets(10, 1)), // rem a0, a1, a2
    (0x02c5e533, 0xffff_fff9, 0, Sets(10, 0xffff_fff9)), // rem a0, a1, a2
    (0x02c5e533, MIN, ONES, Sets(10, 0)), // rem a0, a1, a2
    (0x02c5f533, ONES, 10, Sets(10, 5)), // remu a0, a1, a2
    (0x02c5f533, 7, 0, Sets(10, 7)), // remu a0, a1, a2
    (0x02c5f533, MIN, ONES, Sets(10, MIN)), // remu a0, a1, a2
    (0x00058503, DATA, 0, Sets(10, 0xffff_ff80)), // lb a0, 0(a1)
    (0xfff58503, DATA + 2, 0, Sets(10, 127)), // lb a0, -1(a1)
    (0x00059503, DATA, 0, Sets(10, 0x7f80)), // lh a0, 0(a1)
    (0x00159503, DATA, 0, Sets(10, 0xffff_ff7f)), // lh a0, 1(a1)
    (0x0085a503, DATA, 0, Sets(10, MAX)), // lw a0, 8(a1)
    (0x0015a503, DATA, 0, Sets(10, 0xff7f)), // lw a0, 1(a1)
    (0x00e5a503, DATA, 0, Sets(10, 0x2211_ffff)), // lw a0, 14(a1)
    (0x0005c503, DATA, 0, Sets(10, 128)), // lbu a0, 0(a1)
    (0x0015d503, DATA, 0, Sets(10, 0xff7f)), // lhu a0, 1(a1)
    (0x0005a583, DATA, 0, Sets(11, WORD)), // lw a1, 0(a1)
    (0x0005a003, DATA, 0, Sets(0, 0)), // lw zero, 0(a1)
    (0x0005a503, TEXT, 0, Sets(10, 0x5_a503)), // lw a0, 0(a1)
    (0xfff5c503, 0x7000_4000, 0, Sets(10, 0)), // lbu a0, -1(a1)
    (0x0005a503, 0x7007_0000, 0, Sets(10, 0)), // lw a0, 0(a1)
    (0x0145a503, DATA, 0, Sets(10, 0x8877_6655)), // lw a0, 20(a1)
    (0x0155a503, DATA, 0, Faults(LoadFault)), // lw a0, 21(a1)
    (0xfff59503, DATA, 0, Faults(LoadFault)), // lh a0, -1(a1)
    (0x00158503, ONES, 0, Faults(LoadFault)), // lb a0, 1(a1)
    (0xffd5a503, 0x7007_4000, 0, Faults(LoadFault)), // lw a0, -3(a1)
    (0x0005c503, 0x6fff_ffff, 0, Faults(LoadFault)), // lbu a0, 0(a1)
    (0x0005c503, DATA + 256, 0, Faults(LoadFault)), // lbu a0, 0(a1)
    (0x0005a003, 0, 0, Faults(LoadFault)), // lw zero, 0(a1)
    (0x00c581a3, DATA, 0x1234_5678, Stores(DATA + 3, 1)), // sb a2, 3(a1)
    (0xfec59fa3, DATA + 4, 0x1234_5678, Stores(DATA + 3, 2)), // sh a2, -1(a1)
    (0x00c5a0a3, DATA, 0x1234_5678, Stores(DATA + 1, 4)), // sw a2, 1(a1)
    (0x0005a623, DATA, 0, Stores(DATA + 12, 4)), // sw zero, 12(a1)
    (0x00c58023, DATA + 256, 7, Stores(DATA + 256, 1)), // sb a2, 0(a1)
    (0xfec5ae23, 0x7007_4000, 1, Stores(0x7007_3ffc, 4)), // sw a2, -4(a1)
    (0x00c5a6a3, DATA, 1, Faults(StoreFault)), // sw a2, 13(a1)
    (0x00c58823, DATA, 1, Faults(StoreFault)), // sb a2, 16(a1)
    (0x00c5a023, TEXT, 1, Faults(StoreFault)), // sw a2, 0(a1)
    (0xfec59fa3, DATA, 1, Faults(StoreFault)), // sh a2, -1(a1)
    (0x00c58023, 0x7000_4000, 1, Faults(StoreFault)), // sb a2, 0(a1)
    (0x0ff0000f, 0, 0, Sets(0, 0)), // fence
    (0x8330000f, 0, 0, Sets(0, 0)), // fence.tso
    (0x0ff5850f, 1, 0, Sets(0, 0)), // fence with rd a0, rs1 a1
    (0x00100073, 0, 0, Faults(Breakpoint)), // ebreak
    (0x00000000, 0, 0, Faults(Illegal)), // all zeros
    (0xffffffff, 0, 0, Faults(Illegal)), // all ones
    (0x0000100f, 0, 0, Faults(Illegal)), // fence.i
    (0x00001073, 0, 0, Faults(Illegal)), // csrrw zero, 0, zero
    (0x10500073, 0, 0, Faults(Illegal)), // wfi
    (0x000000f3, 0, 0, Faults(Illegal)), // ecall with rd ra
    (0x0005b503, DATA, 0, Faults(Illegal)), // ld a0, 0(a1)
    (0x00c5b023, DATA, 0, Faults(Illegal)), // sd a2, 0(a1)
    (0x02059513, 0, 0, Faults(Illegal)), // slli a0, a1, 32
    (0x00c5b52f, DATA, 0, Faults(Illegal)), // amoadd.d a0, a2, (a1)
    (0x10c5a52f, DATA, 0, Faults(Illegal)), // lr.w with rs2 a2
    (0x00c5a463, 0, 0, Faults(Illegal)), // branch of funct3 2
    (0x000590e7, 0, 0, Faults(Illegal)), // jalr of funct3 1
    (0x1005a52f, DATA, 0, Reserves(WORD)), // lr.w a0, (a1)
    (0x1605a52f, DATA + 4, 0, Reserves(MIN)), // lr.w.aqrl a0, (a1)
    (0x1005a52f, DATA + 2, 0, Faults(AmoFault)), // lr.w a0, (a1)
    (0x1005a52f, DATA + 16, 0, Faults(AmoFault)), // lr.w a0, (a1)
    (0x1005a52f, DATA + 256, 0, Faults(AmoFault)), // lr.w a0, (a1)
    (0x18c5a52f, DATA + 4, 0x1234_5678, Conditional(true)), // sc.w a0, a2, (a1)
    (0x1ac5a52f, DATA + 4, 0, Conditional(true)), // sc.w.rl a0, a2, (a1)
    (0x18c5a52f, DATA, 1, Conditional(false)), // sc.w a0, a2, (a1)
    (0x18c5a52f, DATA + 5, 1, Faults(AmoFault)), // sc.w a0, a2, (a1)
    (0x18c5a52f, DATA + 16, 1, Faults(AmoFault)), // sc.w a0, a2, (a1)
    (0x08c5a52f, DATA, 1, Swaps(10, WORD, 1)), // amoswap.w a0, a2, (a1)
    (0x08c5a62f, DATA, 1, Swaps(12, WORD, 1)), // amoswap.w a2, a2, (a1)
    (0x08b5a02f, DATA + 4, 1, Swaps(0, 0, DATA + 4)), // amoswap.w zero, a1, (a1)
    (0x00c5a52f, DATA + 12, 2, Swaps(10, ONES, 1)), // amoadd.w a0, a2, (a1)
    (0x20c5a52f, DATA, 0xffff_0000, Swaps(10, WORD, 0xff00_7f80)), // amoxor.w a0, a2, (a1)
    (0x60c5a52f, DATA, 0xff0_0ff0, Swaps(10, WORD, 0xf0_0f80)), // amoand.w a0, a2, (a1)
    (0x40c5a52f, DATA, 0xff0_0ff0, Swaps(10, WORD, 0xfff_7ff0)), // amoor.w a0, a2, (a1)
    (0x80c5a52f, DATA + 4, MAX, Swaps(10, MIN, MIN)), // amomin.w a0, a2, (a1)
    (0x80c5a52f, DATA + 8, MIN, Swaps(10, MAX, MIN)), // amomin.w a0, a2, (a1)
    (0xa0c5a52f, DATA + 4, MAX, Swaps(10, MIN, MAX)), // amomax.w a0, a2, (a1)
    (0xa0c5a52f, DATA + 8, MIN, Swaps(10, MAX, MAX)), // amomax.w a0, a2, (a1)
    (0xc0c5a52f, DATA + 4, MAX, Swaps(10, MIN, MAX)), // amominu.w a0, a2, (a1)
    (0xc0c5a52f, DATA + 8, MIN, Swaps(10, MAX, MAX)), // amominu.w a0, a2, (a1)
    (0xe0c5a52f, DATA + 4, MAX, Swaps(10, MIN, MIN)), // amomaxu.w a0, a2, (a1)
    (0xe4c5a52f, DATA + 8, MIN, Swaps(10, MAX, MIN)), // amomaxu.w.aq a0, a2, (a1)
    (0x00c5a52f, DATA + 1, 1, Faults(AmoFault)), // amoadd.w a0, a2, (a1)
    (0x00c5a52f, DATA + 16, 1, Faults(AmoFault)), // amoadd.w a0, a2, (a1)
    (0x00c5a52f, DATA + 256, 1, Faults(AmoFault)), // amoadd.w a0, a2, (a1)
    (0x00c5a52f, TEXT, 1, Faults(AmoFault)), // amoadd.w a0, a2, (a1)
];

/// The rows, so that no proof about a loop over them reads the table.
fn steps() -> &'static [Row] {
    &STEPS
}

fn thread_before(a1: u32, a2: u32) -> Thread {
    thread_of([7, a1, a2], 0, Some(DATA + 4))
}

fn thread_after(a1: u32, a2: u32, change: Change) -> Thread {
    let before = thread_before(a1, a2);
    let next = TEXT + 4;
    let (rd, value, pc) = match change {
        Sets(rd, value) | Swaps(rd, value, _) => (rd, value, next),
        Links(rd, pc) | Jumps(rd, pc) => (rd, next, pc),
        Branches(_, pc) => (0, 0, pc),
        Stores(..) => (0, 0, next),
        Reserves(word) => (10, word, next),
        Conditional(stores) => (10, u32::from(!stores), next),
        Faults(_) => return before,
    };
    let mut after = before;
    after.local.pc = pc;
    if rd != 0 && rd < 32 {
        after.local.registers[rd as usize] = value;
    }
    after.reservation = match change {
        Reserves(_) => Some(a1),
        Conditional(_) => None,
        _ => before.reservation,
    };
    after.retired = 1;
    after
}

/// The byte that a step stores at an address.
fn stored_at(a1: u32, a2: u32, change: Change, address: u32) -> Option<u8> {
    let (start, count, word) = match change {
        Stores(start, count) => (start, count, a2),
        Conditional(true) => (a1, 4, a2),
        Swaps(_, _, word) => (a1, 4, word),
        _ => return None,
    };
    let place = address.wrapping_sub(start) as usize;
    if place < count {
        word.to_le_bytes().get(place).copied()
    } else {
        None
    }
}

fn is_note_of(note: &Note, change: Change) -> bool {
    match (note, change) {
        (Note::Branch(taken), Branches(outcome, _)) => *taken == outcome,
        (Note::Jump(target), Jumps(_, pc)) => *target == pc,
        (Note::Faulted(cause), Faults(fault)) => *cause == fault,
        (Note::Nothing, Branches(..) | Jumps(..) | Faults(_)) => false,
        (Note::Nothing, _) => true,
        _ => false,
    }
}

/// Compares what came of a step with what must come of it.
fn compare(rt: &impl Abort, row: usize, a1: u32, a2: u32, change: Change, stepped: &Stepped) {
    let core = &stepped.state.core;
    assert_eq!(rt; core.threads.len(), 1, "row {row}");
    let thread = core.threads.as_slice()[0];
    let wanted = thread_after(a1, a2, change);
    assert!(rt; is_same(&thread, &wanted), "row {row}: {thread:?}");
    let halt = match change {
        Faults(cause) => Some(Halt::Faulted { tid: 0, cause }),
        _ => None,
    };
    assert_eq!(rt; core.halt, halt, "row {row}");
    assert!(rt; is_note_of(&stepped.note, change), "row {row}");
    for offset in 0..40u32 {
        let address = a1.wrapping_add(offset).wrapping_sub(16);
        let newest = stepped.state.writes.newest(address);
        assert_eq!(rt; newest, stored_at(a1, a2, change, address), "row {row}");
    }
}

/// Takes the step of a row.
fn takes(rt: &impl Abort, alloc: Global, row: usize, step: Row) -> Result<(), Fail> {
    let (word, a1, a2, change) = step;
    let image = image_of(alloc, word)?;
    let state = machine_of(alloc, &[thread_before(a1, a2)], &[None], &[])?;
    let stepped = step_of(rt, alloc, &image, state, 0)?;
    compare(rt, row, a1, a2, change, &stepped);
    Ok(())
}

#[test]
fn instructions_do_what_the_standard_says(rt: HostRuntime) -> Result<(), Fail> {
    for (row, step) in steps().iter().enumerate() {
        takes(&rt, rt.alloc(), row, *step)?;
    }
    Ok(())
}
