//! Whether a write touches a reserved word.
ghost use Rattle.std.specs.Prelude.{◌≡◌, ◌/◌, ◌^◌, [], ◌∷◌, IfOk, bit_or, nat_eq};
ghost use Rattle.bv_terms.specs.BitVectors.{bit_of};
ghost use Rattle.bv_terms.specs.Values.{value_at};
ghost use Rattle.hit_terms.specs.Hits.{is_in_word, is_touch, place_of, reaches_word};
ghost use Rattle.step_terms.specs.Made.{Grows, IsMade, IsTerm};

use crate::place::place_of;
use access_terms::bits::{both, constant_bit};
use bv_rewrite::rewrite::Rewrite;
use bv_terms::node::{BinOp, TermId};
use bv_terms::pool::TermPool;
use odr_list::memory::Memory;
use step_terms::make::{operation, part};

// Whether one of two tests holds.
fn either<R: Rewrite>(
    pool: &mut TermPool<'_>,
    book: &R,
    left: TermId,
    right: TermId,
) -> Result<TermId, Memory>
    requires left { IsTerm pool.old 1 left.number }
    requires right { IsTerm pool.old 1 right.number }
    ensures made { IfOk result (λ id. IsMade pool.old pool.new (left.number ∷ right.number ∷ []) 1
        (λ w. bit_or (value_at w pool.old left.number) (value_at w pool.old right.number)) id.number) }
    ensures grows { Grows pool.old pool.new }
{
    operation(pool, book, BinOp::Or, left, right)
}

// The number of the aligned word at an address.
fn word_at(pool: &mut TermPool<'_>, address: TermId) -> Result<TermId, Memory>
    requires { IsTerm pool.old 32 address.number }
    ensures made { IfOk result (λ id. IsMade pool.old pool.new (address.number ∷ []) 30
        (λ w. value_at w pool.old address.number / 4) id.number) }
    ensures grows { Grows pool.old pool.new }
{
    let width = pool.width(address);
    prove!(width == 32);
    part(pool, address, 31, 2)
}

// Whether two words are the same one, by their numbers.
fn same_word<R: Rewrite>(
    pool: &mut TermPool<'_>,
    book: &R,
    left: TermId,
    right: TermId,
) -> Result<TermId, Memory>
    requires left { IsTerm pool.old 30 left.number }
    requires right { IsTerm pool.old 30 right.number }
    ensures made { IfOk result (λ id. IsMade pool.old pool.new (left.number ∷ right.number ∷ []) 1
        (λ w. bit_of (nat_eq (value_at w pool.old left.number) (value_at w pool.old right.number))) id.number) }
    ensures grows { Grows pool.old pool.new }
{
    operation(pool, book, BinOp::Eq, left, right)
}

// Whether the byte at an index of an access is in the aligned word at an address.
fn in_word<R: Rewrite>(
    pool: &mut TermPool<'_>,
    book: &R,
    address: TermId,
    index: u32,
    reserved: TermId,
) -> Result<TermId, Memory>
    requires address { IsTerm pool.old 32 address.number }
    requires reserved { IsTerm pool.old 32 reserved.number }
    ensures made { IfOk result (λ id. IsMade pool.old pool.new (address.number ∷ reserved.number ∷ []) 1
        (λ w. bit_of (is_in_word (place_of (value_at w pool.old address.number) index) (value_at w pool.old reserved.number))) id.number) }
    ensures grows { Grows pool.old pool.new }
{
    let place = place_of(pool, book, address, index)?;
    let word = word_at(pool, place)?;
    let other = word_at(pool, reserved)?;
    same_word(pool, book, word, other)
}

// Whether one of so many bytes of an access is in the aligned word at an address.
fn reaches_word<R: Rewrite>(
    pool: &mut TermPool<'_>,
    book: &R,
    count: u32,
    address: TermId,
    reserved: TermId,
) -> Result<TermId, Memory>
    requires address { IsTerm pool.old 32 address.number }
    requires reserved { IsTerm pool.old 32 reserved.number }
    ensures made { IfOk result (λ id. IsMade pool.old pool.new (address.number ∷ reserved.number ∷ []) 1
        (λ w. bit_of (reaches_word count (value_at w pool.old address.number) (value_at w pool.old reserved.number))) id.number) }
    ensures grows { Grows pool.old pool.new }
{
    let mut test = constant_bit(pool, false)?;
    for index in 0..count {
        let byte = in_word(pool, book, address, index, reserved)?;
        test = either(pool, book, test, byte)?;
    }
    Ok(test)
}

/// Whether a write of so many bytes takes place, by its guard, and touches the aligned word at an address.
pub fn touch<R: Rewrite>(
    pool: &mut TermPool<'_>,
    book: &R,
    guard: TermId,
    count: u32,
    address: TermId,
    reserved: TermId,
) -> Result<TermId, Memory>
    requires guard { IsTerm pool.old 1 guard.number }
    requires address { IsTerm pool.old 32 address.number }
    requires reserved { IsTerm pool.old 32 reserved.number }
    ensures made { IfOk result (λ id. IsMade pool.old pool.new (guard.number ∷ address.number ∷ reserved.number ∷ []) 1
        (λ w. bit_of (is_touch (value_at w pool.old guard.number) count (value_at w pool.old address.number) (value_at w pool.old reserved.number))) id.number) }
    ensures grows { Grows pool.old pool.new }
{
    let width = pool.width(guard);
    prove!(width == 1);
    let reached = reaches_word(pool, book, count, address, reserved)?;
    both(pool, book, guard, reached)
}
