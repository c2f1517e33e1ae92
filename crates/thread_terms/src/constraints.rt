//! What is recorded of branches and jumps, as constraints on the registers before them.
ghost use Rattle.std.specs.Prelude.{◌≡◌, ◌-◌, ◌*◌, ◌/◌, ◌<◌, [], ◌∷◌, IfOk, if◌then◌else◌};
ghost use Rattle.bv_terms.specs.Values.{value_at};
ghost use Rattle.rv_model.specs.Thread.{register};
ghost use Rattle.rv_model.specs.Values.{plus_offset, taken_of};
ghost use Rattle.step_terms.specs.Made.{Grows, IsMade, IsTerm};
ghost use Rattle.thread_terms.specs.Standing.{AreRegisters, Says};

use crate::registers::read;
use bv_rewrite::rewrite::Rewrite;
use bv_terms::node::TermId;
use bv_terms::pool::TermPool;
use odr_list::memory::Memory;
use rv32_decode::instr::BranchOp;
use step_terms::address::jump_target;
use step_terms::branch::taken;
use step_terms::make::inverse;
use step_terms::word::equals;

// Whether a bit is as it is recorded.
fn agrees(pool: &mut TermPool<'_>, bit: TermId, recorded: bool) -> Result<TermId, Memory>
    requires { IsTerm pool.old 1 bit.number }
    ensures made { IfOk result (λ id. IsMade pool.old pool.new (bit.number ∷ []) 1
        (λ w. if recorded then value_at w pool.old bit.number else 1 - value_at w pool.old bit.number) id.number) }
    ensures grows { Grows pool.old pool.new }
{
    if recorded {
        Ok(bit)
    } else {
        inverse(pool, bit)
    }
}

/// A branch goes as it is recorded.
pub fn branch<R: Rewrite>(
    pool: &mut TermPool<'_>,
    book: &R,
    registers: &[TermId; 32],
    op: BranchOp,
    rs1: u8,
    rs2: u8,
    recorded: bool,
) -> Result<TermId, Memory>
    requires registers { AreRegisters pool.old registers.now }
    requires rs1 { rs1 < 32 }
    requires rs2 { rs2 < 32 }
    ensures says { IfOk result (λ id. Says pool.old pool.new registers.now id.number
        (λ local. taken_of op (register local rs1) (register local rs2) ≡ recorded)) }
    ensures grows { Grows pool.old pool.new }
{
    let left = read(registers, rs1);
    let right = read(registers, rs2);
    let goes = taken(pool, book, op, left, right)?;
    agrees(pool, goes, recorded)
}

/// A JALR goes to the target that is recorded.
pub fn jump<R: Rewrite>(
    pool: &mut TermPool<'_>,
    book: &R,
    registers: &[TermId; 32],
    rs1: u8,
    offset: i32,
    recorded: u32,
) -> Result<TermId, Memory>
    requires registers { AreRegisters pool.old registers.now }
    requires rs1 { rs1 < 32 }
    ensures says { IfOk result (λ id. Says pool.old pool.new registers.now id.number (λ local. plus_offset (register local rs1) offset / 2 * 2 ≡ recorded)) }
    ensures grows { Grows pool.old pool.new }
{
    let base = read(registers, rs1);
    let target = jump_target(pool, book, base, offset)?;
    equals(pool, book, target, recorded)
}

/// A register holds a number that is recorded, as an argument of a call.
pub fn holds<R: Rewrite>(
    pool: &mut TermPool<'_>,
    book: &R,
    registers: &[TermId; 32],
    number: u8,
    recorded: u32,
) -> Result<TermId, Memory>
    requires registers { AreRegisters pool.old registers.now }
    requires number { number < 32 }
    ensures says { IfOk result (λ id. Says pool.old pool.new registers.now id.number (λ local. register local number ≡ recorded)) }
    ensures grows { Grows pool.old pool.new }
{
    equals(pool, book, read(registers, number), recorded)
}
