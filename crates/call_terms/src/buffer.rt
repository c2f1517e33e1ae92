//! The buffer of a call, as a constraint on registers and on the bytes that are read.
ghost use Rattle.std.specs.Prelude.{◌≡◌, ◌≤◌, true, [], ◌∷◌, IfOk, length, nat_eq};
ghost use Rattle.bv_terms.specs.BitVectors.{bit_of};
ghost use Rattle.bv_terms.specs.Values.{value_at};
ghost use Rattle.rv_model.specs.Calls.{first_argument, second_argument};
ghost use Rattle.rv_model.specs.CallsFit.{IsPossible};
ghost use Rattle.step_terms.specs.Bytes.{AreBytes, numbers, values};
ghost use Rattle.step_terms.specs.Made.{Grows, IsMade, IsTerm};
ghost use Rattle.thread_terms.specs.Given.{given_by};
ghost use Rattle.thread_terms.specs.Standing.{AreRegisters};
ghost use Rattle.thread_terms.specs.Variables.{AreVariables, IsByteOf};
ghost use Rattle.call_terms.specs.Records.{BufferMeets, may_read, read_in};
ghost use Rattle.call_terms.specs.Constraints.{HoldsWhere, Tests};

use crate::conjunction::conjunction;
use crate::refused::refused;
use access_terms::bits::constant_bit;
use access_terms::right::Right;
use access_terms::rights::rights;
use bv_rewrite::rewrite::Rewrite;
use bv_terms::node::TermId;
use bv_terms::pool::TermPool;
use elf_image::image::Image;
use odr_list::memory::Memory;
use odr_log::log::{Call, Pos};
use step_terms::make::zero_extended;
use step_terms::word::equals;
use thread_terms::registers::read;

// Whether a byte that is read is the recorded one.
fn byte_equals<R: Rewrite>(
    pool: &mut TermPool<'_>,
    book: &R,
    byte: TermId,
    recorded: u8,
) -> Result<TermId, Memory>
    requires { IsTerm pool.old 8 byte.number }
    ensures made { IfOk result (λ id. IsMade pool.old pool.new (byte.number ∷ []) 1
        (λ w. bit_of (nat_eq (value_at w pool.old byte.number) recorded)) id.number) }
    ensures grows { Grows pool.old pool.new }
{
    let word = zero_extended(pool, byte, 32)?;
    equals(pool, book, word, u32::from(recorded))
}

// Whether the bytes that are read are the recorded ones.
fn bytes_equal<R: Rewrite>(
    pool: &mut TermPool<'_>,
    book: &R,
    bytes: &[TermId],
    recorded: &[u8],
) -> Result<TermId, Memory>
    requires bytes { AreBytes pool.old bytes.now }
    requires count { length bytes.now ≡ length recorded.now }
    ensures equal { IfOk result (λ id. HoldsWhere pool.old pool.new (numbers bytes.now) id.number (λ w. values w pool.old bytes.now ≡ recorded.now)) }
    ensures grows { Grows pool.old pool.new }
{
    let mut test = constant_bit(pool, true)?;
    for index in 0..recorded.len() {
        let byte = byte_equals(pool, book, bytes[index], recorded[index])?;
        test = conjunction(pool, book, test, byte)?;
    }
    Ok(test)
}

// Whether a write call reads the recorded bytes from a buffer.
fn handed<R: Rewrite>(
    pool: &mut TermPool<'_>,
    book: &R,
    image: &Image,
    address: TermId,
    reads: &[TermId],
    recorded: &[u8],
) -> Result<TermId, Memory>
    requires address { IsTerm pool.old 32 address.number }
    requires bytes { AreBytes pool.old reads.now }
    requires count { length reads.now ≡ length recorded.now }
    requires few { length recorded.now ≤ 256 }
    ensures handed { IfOk result (λ id. HoldsWhere pool.old pool.new (address.number ∷ numbers reads.now) id.number
        (λ w. (may_read image.now (value_at w pool.old address.number) (length recorded.now) ≡ true) × (values w pool.old reads.now ≡ recorded.now))) }
    ensures grows { Grows pool.old pool.new }
{
    let same = bytes_equal(pool, book, reads, recorded)?;
    let allowed = rights(
        pool,
        book,
        image,
        Right::Read,
        address,
        recorded.len() as u32,
    )?;
    conjunction(pool, book, allowed, same)
}

/// Whether the buffer of a call is as its record tells, where these are the variables of what a write call reads.
pub fn buffer<R: Rewrite>(
    pool: &mut TermPool<'_>,
    book: &R,
    image: &Image,
    pos: Pos,
    registers: &[TermId; 32],
    reads: &[TermId],
    call: &Call,
) -> Result<TermId, Memory>
    requires registers { AreRegisters pool.old registers.now }
    requires possible { IsPossible call.now }
    requires variables { AreVariables pool.old pos reads.now }
    requires count { length reads.now ≡ length (read_in call.now) }
    ensures tests { IfOk result (λ id. Tests (IsByteOf pos (length reads.now)) pool.old pool.new registers.now id.number
        (λ w local. BufferMeets image.now ((given_by w).bytes pos.thread pos.step) (first_argument local) (second_argument local) call.now)) }
    ensures grows { Grows pool.old pool.new }
{
    let address = read(registers, 10);
    let count = read(registers, 11);
    match call {
        Call::Write { bytes } => handed(pool, book, image, address, reads, bytes.as_slice()),
        Call::Read { want, .. } => rights(pool, book, image, Right::Write, address, *want),
        Call::WriteBad => refused(pool, book, image, Right::Read, address, count),
        Call::ReadBad => refused(pool, book, image, Right::Write, address, count),
        _ => constant_bit(pool, true),
    }
}
