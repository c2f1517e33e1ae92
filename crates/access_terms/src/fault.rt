//! The fault that ends a log.
ghost use Rattle.std.specs.Prelude.{◌≡◌, ◌-◌, ◌*◌, ◌/◌, ◌<◌, ℕ, true, [], ◌∷◌, IfOk, Ok, Option};
ghost use Rattle.elf_image.specs.Memory.{opening_cells};
ghost use Rattle.rv32_decode.specs.Valid.{IsValid};
ghost use Rattle.odr_log.specs.declared.log.Pos.{Pos};
ghost use Rattle.rv_model.specs.declared.state.Note.TheVariants as note;
ghost use Rattle.rv_model.specs.Instruction.{is_aligned};
ghost use Rattle.rv_model.specs.Values.{plus_offset};
ghost use Rattle.rv_model.specs.Walk.{may_fault};
ghost use Rattle.bv_terms.specs.BitVectors.{bit_of};
ghost use Rattle.bv_terms.specs.Values.{value_at};
ghost use Rattle.step_terms.specs.Made.{Grows, IsMade};
ghost use Rattle.thread_terms.specs.Standing.{AreRegisters, term_of};
ghost use Rattle.thread_terms.specs.Steps.{IsFault};
ghost use Rattle.access_terms.specs.Rights.{all_allow, may_use};

use crate::bits::{constant_bit, two_bits_are_zero};
use crate::right::Right;
use crate::rights::{rights, usable};
use bv_rewrite::rewrite::Rewrite;
use bv_terms::node::TermId;
use bv_terms::pool::TermPool;
use elf_image::image::Image;
use odr_list::memory::Memory;
use odr_log::log::Cause;
use rv_model::values::{load_size, store_size};
use rv_model::walk::Place;
use rv32_decode::instr::Instr;
use step_terms::address::{jump_target, offset_by};
use step_terms::make::inverse;
use thread_terms::constraints::branch;
use thread_terms::registers::read;

// Whether an access has not got a right.
fn lacks_right<R: Rewrite>(
    pool: &mut TermPool<'_>,
    book: &R,
    image: &Image,
    right: Right,
    registers: &[TermId; 32],
    rs1: u8,
    offset: i32,
    count: u32,
) -> Result<TermId, Memory>
    requires registers { AreRegisters pool.old registers.now }
    requires rs1 { rs1 < 32 }
    ensures made { IfOk result (λ id. IsMade pool.old pool.new (term_of registers.now rs1 ∷ []) 1
        (λ w. 1 - bit_of (all_allow right (opening_cells image.now) (plus_offset (value_at w pool.old (term_of registers.now rs1)) offset) count)) id.number) }
    ensures grows { Grows pool.old pool.new }
{
    let base = read(registers, rs1);
    let address = offset_by(pool, book, base, offset)?;
    let test = rights(pool, book, image, right, address, count)?;
    inverse(pool, test)
}

// Whether the atomic instructions may not use the word whose address a register has.
fn unusable<R: Rewrite>(
    pool: &mut TermPool<'_>,
    book: &R,
    image: &Image,
    registers: &[TermId; 32],
    rs1: u8,
) -> Result<TermId, Memory>
    requires registers { AreRegisters pool.old registers.now }
    requires rs1 { rs1 < 32 }
    ensures made { IfOk result (λ id. IsMade pool.old pool.new (term_of registers.now rs1 ∷ []) 1
        (λ w. 1 - bit_of (may_use image.now (value_at w pool.old (term_of registers.now rs1)))) id.number) }
    ensures grows { Grows pool.old pool.new }
{
    let test = usable(pool, book, image, read(registers, rs1))?;
    inverse(pool, test)
}

// Whether the target that a JALR finds in a register is no multiple of four.
fn misses<R: Rewrite>(
    pool: &mut TermPool<'_>,
    book: &R,
    registers: &[TermId; 32],
    rs1: u8,
    offset: i32,
) -> Result<TermId, Memory>
    requires registers { AreRegisters pool.old registers.now }
    requires rs1 { rs1 < 32 }
    ensures made { IfOk result (λ id. IsMade pool.old pool.new (term_of registers.now rs1 ∷ []) 1
        (λ w. 1 - bit_of (is_aligned (plus_offset (value_at w pool.old (term_of registers.now rs1)) offset / 2 * 2))) id.number) }
    ensures grows { Grows pool.old pool.new }
{
    let base = read(registers, rs1);
    let target = jump_target(pool, book, base, offset)?;
    let aligned = two_bits_are_zero(pool, book, target, 0)?;
    inverse(pool, aligned)
}

/// Whether the instruction at a place faults as it is recorded: a term of one bit over the registers before it.
pub fn fault<R: Rewrite>(
    pool: &mut TermPool<'_>,
    book: &R,
    image: &Image,
    place: &Place,
    cause: Cause,
    registers: &[TermId; 32],
) -> Result<TermId, Memory>
    requires registers { AreRegisters pool.old registers.now }
    requires valid { IsValid place.now.instr }
    requires fits { may_fault cause place.now.pc (Ok place.now.instr) ≡ true }
    ensures fault { IfOk result (λ id. (p : Pos) (link : Option ℕ)
        → IsFault image.now p place.now.pc place.now.instr (note.Faulted cause) link pool.old pool.new registers.now id.number) }
    ensures grows { Grows pool.old pool.new }
{
    match place.instr {
        Instr::Load {
            op,
            rs1,
            offset,
            ..
        } => {
            lacks_right(
                pool,
                book,
                image,
                Right::Read,
                registers,
                rs1,
                offset,
                load_size(op),
            )
        }
        Instr::Store {
            op,
            rs1,
            offset,
            ..
        } => {
            lacks_right(
                pool,
                book,
                image,
                Right::Write,
                registers,
                rs1,
                offset,
                store_size(op),
            )
        }
        Instr::LoadReserved { rs1, .. } => unusable(pool, book, image, registers, rs1),
        Instr::StoreConditional { rs1, .. } => unusable(pool, book, image, registers, rs1),
        Instr::Amo { rs1, .. } => unusable(pool, book, image, registers, rs1),
        Instr::Jalr { rs1, offset, .. } => misses(pool, book, registers, rs1, offset),
        Instr::Branch { op, rs1, rs2, .. } => branch(pool, book, registers, op, rs1, rs2, true),
        _ => constant_bit(pool, true),
    }
}
