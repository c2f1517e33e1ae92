//! A buffer that a call refuses, of a length that is a term.
ghost use Rattle.std.specs.Prelude.{◌&&◌, ◌+◌, ◌%◌, ◌^◌, ◌<◌, [], ◌∷◌, IfOk, not, nat_le, ◌||◌};
ghost use Rattle.bv_terms.specs.BitVectors.{bit_of};
ghost use Rattle.bv_terms.specs.Values.{value_at};
ghost use Rattle.elf_image.specs.Memory.{opening_cells};
ghost use Rattle.rv_model.specs.Calls.{fits_buffer};
ghost use Rattle.step_terms.specs.Made.{Grows, IsMade, IsTerm};
ghost use Rattle.access_terms.specs.Rights.{all_allow, allows};

use access_terms::bits::{both, constant_bit, within};
use access_terms::right::Right;
use access_terms::rights::{byte_allowed, rights};
use bv_rewrite::rewrite::Rewrite;
use bv_terms::node::TermId;
use bv_terms::pool::TermPool;
use elf_image::image::Image;
use odr_list::memory::Memory;
use step_terms::make::inverse;

// Whether the byte at an index of a buffer is beyond its end or has a right.
fn byte_passes<R: Rewrite>(
    pool: &mut TermPool<'_>,
    book: &R,
    image: &Image,
    right: Right,
    address: TermId,
    count: TermId,
    index: u32,
) -> Result<TermId, Memory>
    requires address { IsTerm pool.old 32 address.number }
    requires count { IsTerm pool.old 32 count.number }
    requires index { index < 256 }
    ensures made { IfOk result (λ id. IsMade pool.old pool.new (address.number ∷ count.number ∷ []) 1
        (λ w. bit_of (nat_le (value_at w pool.old count.number) index
        || allows right (opening_cells image.now ((value_at w pool.old address.number + index) % 2 ^ 32)))) id.number) }
    ensures grows { Grows pool.old pool.new }
{
    let beyond = within(pool, book, count, 0, index + 1)?;
    let allowed = byte_allowed(pool, book, image, right, address, index)?;
    let inside = inverse(pool, beyond)?;
    let refused = inverse(pool, allowed)?;
    let bad = both(pool, book, inside, refused)?;
    inverse(pool, bad)
}

// Whether a buffer of at most 256 bytes has a right.
fn allowed<R: Rewrite>(
    pool: &mut TermPool<'_>,
    book: &R,
    image: &Image,
    right: Right,
    address: TermId,
    count: TermId,
) -> Result<TermId, Memory>
    requires address { IsTerm pool.old 32 address.number }
    requires count { IsTerm pool.old 32 count.number }
    ensures made { IfOk result (λ id. IsMade pool.old pool.new (address.number ∷ count.number ∷ []) 1
        (λ w. bit_of (fits_buffer (value_at w pool.old count.number)
        && all_allow right (opening_cells image.now) (value_at w pool.old address.number) (value_at w pool.old count.number))) id.number) }
    ensures grows { Grows pool.old pool.new }
{
    let width = pool.width(address);
    prove!(width == 32);
    let mut test = within(pool, book, count, 0, 257)?;
    for index in 0..256 {
        let byte = byte_passes(pool, book, image, right, address, count, index)?;
        test = both(pool, book, test, byte)?;
    }
    Ok(test)
}

/// Whether a buffer is too long or has not everywhere a right. Of a constant length only its own bytes are asked.
pub fn refused<R: Rewrite>(
    pool: &mut TermPool<'_>,
    book: &R,
    image: &Image,
    right: Right,
    address: TermId,
    count: TermId,
) -> Result<TermId, Memory>
    requires address { IsTerm pool.old 32 address.number }
    requires count { IsTerm pool.old 32 count.number }
    ensures made { IfOk result (λ id. IsMade pool.old pool.new (address.number ∷ count.number ∷ []) 1
        (λ w. bit_of (not (fits_buffer (value_at w pool.old count.number)
        && all_allow right (opening_cells image.now) (value_at w pool.old address.number) (value_at w pool.old count.number)))) id.number) }
    ensures grows { Grows pool.old pool.new }
{
    let fine = match pool.constant(count) {
        Some(length) if length > 256 => constant_bit(pool, false)?,
        Some(length) => rights(pool, book, image, right, address, length as u32)?,
        None => allowed(pool, book, image, right, address, count)?,
    };
    inverse(pool, fine)
}
