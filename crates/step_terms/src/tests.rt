use crate::alu::alu;
use crate::atomic::amo;
use crate::branch::taken;
use crate::make::word;
use bumpalo::Bump;
use bv_rewrite::rewrite::NoRules;
use bv_terms::pool::TermPool;
use odr_list::memory::Memory;
use rv32_decode::instr::{AluOp, AmoOp, BranchOp};
use std::alloc::Global;
use std::test::Fail;

// What an operation of two registers that hold these words becomes.
fn alu_value(alloc: Global, op: AluOp, left: u32, right: u32) -> Result<Option<u64>, Memory> {
    let arena = Bump::new(alloc);
    let mut pool = TermPool::new(alloc, &arena);
    let left = word(&mut pool, left)?;
    let right = word(&mut pool, right)?;
    let term = alu(&mut pool, &NoRules, op, left, right)?;
    Ok(pool.constant(term))
}

// What the test of a branch becomes.
fn taken_value(alloc: Global, op: BranchOp, left: u32, right: u32) -> Result<Option<u64>, Memory> {
    let arena = Bump::new(alloc);
    let mut pool = TermPool::new(alloc, &arena);
    let left = word(&mut pool, left)?;
    let right = word(&mut pool, right)?;
    let term = taken(&mut pool, &NoRules, op, left, right)?;
    Ok(pool.constant(term))
}

// What an atomic memory operation stores.
fn amo_value(alloc: Global, op: AmoOp, old: u32, register: u32) -> Result<Option<u64>, Memory> {
    let arena = Bump::new(alloc);
    let mut pool = TermPool::new(alloc, &arena);
    let old = word(&mut pool, old)?;
    let register = word(&mut pool, register)?;
    let term = amo(&mut pool, &NoRules, op, old, register)?;
    Ok(pool.constant(term))
}

// The words were worked out from the RISC-V standard by another program.
const REGISTER_ROWS: [(AluOp, u32, u32, u64); 30] = [
    (AluOp::Add, 0xffffffff, 1, 0),
    (AluOp::Sub, 0, 1, 0xffffffff),
    (AluOp::Sll, 0x80000001, 33, 2),
    (AluOp::Slt, 0x80000000, 0x7fffffff, 1),
    (AluOp::Slt, 1, 0xffffffff, 0),
    (AluOp::Sltu, 1, 0xffffffff, 1),
    (AluOp::Xor, 0xff00ff00, 0x0ff00ff0, 0xf0f0f0f0),
    (AluOp::Srl, 0x80000000, 63, 1),
    (AluOp::Sra, 0x80000000, 36, 0xf8000000),
    (AluOp::Sra, 0x40000000, 36, 0x04000000),
    (AluOp::Or, 0xf0f00000, 0x0000f0f0, 0xf0f0f0f0),
    (AluOp::And, 0xff00ff00, 0x0ff00ff0, 0x0f000f00),
    (AluOp::Mul, 0x80000001, 0xffffffff, 0x7fffffff),
    (AluOp::Mulh, 0x80000000, 0x80000000, 0x40000000),
    (AluOp::Mulh, 0xffffffff, 1, 0xffffffff),
    (AluOp::Mulhsu, 0xffffffff, 0xffffffff, 0xffffffff),
    (AluOp::Mulhsu, 0x7fffffff, 0x80000000, 0x3fffffff),
    (AluOp::Mulhu, 0xffffffff, 0xffffffff, 0xfffffffe),
    (AluOp::Div, 0xfffffff9, 2, 0xfffffffd),
    (AluOp::Div, 0xfffffff9, 0, 0xffffffff),
    (AluOp::Div, 0x80000000, 0xffffffff, 0x80000000),
    (AluOp::Div, 7, 0xfffffffe, 0xfffffffd),
    (AluOp::Divu, 0xfffffff9, 0, 0xffffffff),
    (AluOp::Divu, 0xfffffff9, 2, 0x7ffffffc),
    (AluOp::Rem, 0xfffffff9, 2, 0xffffffff),
    (AluOp::Rem, 0xfffffff9, 0, 0xfffffff9),
    (AluOp::Rem, 0x80000000, 0xffffffff, 0),
    (AluOp::Rem, 7, 0xfffffffe, 1),
    (AluOp::Remu, 0xfffffff9, 0, 0xfffffff9),
    (AluOp::Remu, 0xfffffff9, 2, 1),
];

const BRANCH_ROWS: [(BranchOp, u32, u32, u64); 7] = [
    (BranchOp::Beq, 5, 5, 1),
    (BranchOp::Bne, 5, 5, 0),
    (BranchOp::Blt, 0xffffffff, 0, 1),
    (BranchOp::Bge, 0x80000000, 0x7fffffff, 0),
    (BranchOp::Bge, 3, 3, 1),
    (BranchOp::Bltu, 0xffffffff, 0, 0),
    (BranchOp::Bgeu, 0, 0, 1),
];

const AMO_ROWS: [(AmoOp, u32, u32, u64); 9] = [
    (AmoOp::Swap, 1, 2, 2),
    (AmoOp::Add, 0xffffffff, 2, 1),
    (AmoOp::Xor, 0x0000ff00, 0x00000ff0, 0x0000f0f0),
    (AmoOp::And, 0x0000ff00, 0x00000ff0, 0x00000f00),
    (AmoOp::Or, 0x0000ff00, 0x00000ff0, 0x0000fff0),
    (AmoOp::Min, 0x80000000, 1, 0x80000000),
    (AmoOp::Max, 0x80000000, 1, 1),
    (AmoOp::Minu, 0x80000000, 1, 1),
    (AmoOp::Maxu, 0x80000000, 1, 0x80000000),
];

#[test]
fn instructions_have_the_values_of_the_standard(rt: HostRuntime) -> Result<(), Fail> {
    let alloc = rt.alloc();
    for (op, left, right, value) in REGISTER_ROWS {
        assert_eq!(rt; alu_value(alloc, op, left, right)?, Some(value));
    }
    for (op, left, right, value) in BRANCH_ROWS {
        assert_eq!(rt; taken_value(alloc, op, left, right)?, Some(value));
    }
    for (op, old, register, value) in AMO_ROWS {
        assert_eq!(rt; amo_value(alloc, op, old, register)?, Some(value));
    }
    Ok(())
}
