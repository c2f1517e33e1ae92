//! Addresses of bytes of accesses.
ghost use Rattle.std.specs.Prelude.{◌≡◌, ◌+◌, ◌%◌, ◌^◌, [], ◌∷◌, IfOk, nat_eq};
ghost use Rattle.bv_terms.specs.BitVectors.{bit_of};
ghost use Rattle.bv_terms.specs.Values.{value_at};
ghost use Rattle.hit_terms.specs.Hits.{is_same_place, place_of};
ghost use Rattle.step_terms.specs.Made.{Grows, IsMade, IsTerm};

use bv_rewrite::rewrite::Rewrite;
use bv_terms::node::{BinOp, TermId};
use bv_terms::pool::TermPool;
use odr_list::memory::Memory;
use step_terms::make;
use step_terms::word::of_words;

/// The address of the byte at an index of an access.
pub fn place_of<R: Rewrite>(
    pool: &mut TermPool<'_>,
    book: &R,
    address: TermId,
    index: u32,
) -> Result<TermId, Memory>
    requires { IsTerm pool.old 32 address.number }
    ensures made { IfOk result (λ id. IsMade pool.old pool.new (address.number ∷ []) 32
        (λ w. place_of (value_at w pool.old address.number) index) id.number) }
    ensures grows { Grows pool.old pool.new }
{
    let index = make::word(pool, index)?;
    of_words(pool, book, BinOp::Add, address, index)
}

// Whether the byte at an index of one access is the first one of another.
fn same_ahead<R: Rewrite>(
    pool: &mut TermPool<'_>,
    book: &R,
    address: TermId,
    index: u32,
    other: TermId,
) -> Result<TermId, Memory>
    requires address { IsTerm pool.old 32 address.number }
    requires other { IsTerm pool.old 32 other.number }
    ensures made { IfOk result (λ id. IsMade pool.old pool.new (address.number ∷ other.number ∷ []) 1
        (λ w. bit_of (nat_eq (place_of (value_at w pool.old address.number) index) (value_at w pool.old other.number))) id.number) }
    ensures grows { Grows pool.old pool.new }
{
    let place = place_of(pool, book, address, index)?;
    of_words(pool, book, BinOp::Eq, place, other)
}

/// Whether the byte at an index of one access has the address of the byte at an index of another. Indices that are as far apart give
/// one term.
pub fn same_place<R: Rewrite>(
    pool: &mut TermPool<'_>,
    book: &R,
    address: TermId,
    index: u32,
    other: TermId,
    other_index: u32,
) -> Result<TermId, Memory>
    requires address { IsTerm pool.old 32 address.number }
    requires other { IsTerm pool.old 32 other.number }
    ensures made { IfOk result (λ id. IsMade pool.old pool.new (address.number ∷ other.number ∷ []) 1
        (λ w. bit_of (is_same_place (value_at w pool.old address.number) index (value_at w pool.old other.number) other_index)) id.number) }
    ensures grows { Grows pool.old pool.new }
{
    let width = pool.width(address);
    prove!(width == 32);
    let other_width = pool.width(other);
    prove!(other_width == 32);
    if other_index <= index {
        same_ahead(pool, book, address, index - other_index, other)
    } else {
        same_ahead(pool, book, other, other_index - index, address)
    }
}
