//! The instructions that write a register from registers alone.
ghost use Rattle.std.specs.Prelude.{◌≡◌, ◌+◌, ◌%◌, ◌^◌, ◌<◌, OnOk, OnErr};
ghost use Rattle.rv_model.specs.Thread.{register, word_after};
ghost use Rattle.rv_model.specs.Values.{alu_of, imm_of};
ghost use Rattle.step_terms.specs.Made.{Grows, IsTerm};
ghost use Rattle.thread_terms.specs.Standing.{AreRegisters, Puts, Writes};

use crate::registers::{read, write};
use bv_rewrite::rewrite::Rewrite;
use bv_terms::node::TermId;
use bv_terms::pool::TermPool;
use odr_list::memory::Memory;
use rv32_decode::instr::{AluOp, ImmOp};
use step_terms::alu::{alu, imm_alu};
use step_terms::make::word;

/// An operation of two registers.
pub fn register_operation<R: Rewrite>(
    pool: &mut TermPool<'_>,
    book: &R,
    registers: &mut [TermId; 32],
    op: AluOp,
    rd: u8,
    rs1: u8,
    rs2: u8,
) -> Result<(), Memory>
    requires registers { AreRegisters pool.old registers.old }
    requires rd { rd < 32 }
    requires rs1 { rs1 < 32 }
    requires rs2 { rs2 < 32 }
    ensures writes { OnOk result (Writes pool.old pool.new registers.old registers.new rd (λ local. alu_of op (register local rs1) (register local rs2))) }
    ensures registers { AreRegisters pool.new registers.new }
    ensures same { OnErr result (registers.new ≡ registers.old) }
    ensures grows { Grows pool.old pool.new }
{
    let left = read(registers, rs1);
    let right = read(registers, rs2);
    let value = alu(pool, book, op, left, right)?;
    write(registers, rd, value);
    Ok(())
}

/// An operation of a register and an immediate.
pub fn immediate_operation<R: Rewrite>(
    pool: &mut TermPool<'_>,
    book: &R,
    registers: &mut [TermId; 32],
    op: ImmOp,
    rd: u8,
    rs1: u8,
    imm: i32,
) -> Result<(), Memory>
    requires registers { AreRegisters pool.old registers.old }
    requires rd { rd < 32 }
    requires rs1 { rs1 < 32 }
    ensures writes { OnOk result (Writes pool.old pool.new registers.old registers.new rd (λ local. imm_of op (register local rs1) imm)) }
    ensures registers { AreRegisters pool.new registers.new }
    ensures same { OnErr result (registers.new ≡ registers.old) }
    ensures grows { Grows pool.old pool.new }
{
    let left = read(registers, rs1);
    let value = imm_alu(pool, book, op, left, imm)?;
    write(registers, rd, value);
    Ok(())
}

/// A number that the instruction and its address tell: LUI, AUIPC, and the address after a JAL or a JALR.
pub fn number(
    pool: &mut TermPool<'_>,
    registers: &mut [TermId; 32],
    rd: u8,
    number: u32,
) -> Result<(), Memory>
    requires registers { AreRegisters pool.old registers.old }
    requires rd { rd < 32 }
    ensures writes { OnOk result (Writes pool.old pool.new registers.old registers.new rd (λ _. number)) }
    ensures registers { AreRegisters pool.new registers.new }
    ensures same { OnErr result (registers.new ≡ registers.old) }
    ensures grows { Grows pool.old pool.new }
{
    let value = word(pool, number)?;
    write(registers, rd, value);
    Ok(())
}

/// A term that stands for a register's value: what a load read, the outcome of a store-conditional, what a join hands on.
pub fn put(pool: &TermPool<'_>, registers: &mut [TermId; 32], rd: u8, term: TermId)
    requires registers { AreRegisters pool.now registers.old }
    requires rd { rd < 32 }
    requires term { IsTerm pool.now 32 term.number }
    ensures puts { Puts pool.now registers.old registers.new rd term.number }
    ensures registers { AreRegisters pool.now registers.new }
{
    write(registers, rd, term)
}
