//! The rights of an access, at an address that is a term.
ghost use Rattle.std.specs.Prelude.{◌≡◌, ◌+◌, ◌%◌, ◌^◌, [], ◌∷◌, IfOk};
ghost use Rattle.bv_terms.specs.BitVectors.{bit_of};
ghost use Rattle.bv_terms.specs.Values.{value_at};
ghost use Rattle.elf_image.specs.Memory.{opening_cells};
ghost use Rattle.step_terms.specs.Made.{Grows, IsMade, IsTerm};
ghost use Rattle.access_terms.specs.Rights.{all_allow, allows, may_use};

use crate::bits::{both, constant_bit, two_bits_are_zero};
use crate::place::allowed;
use crate::right::Right;
use bv_rewrite::rewrite::Rewrite;
use bv_terms::node::{BinOp, TermId};
use bv_terms::pool::TermPool;
use elf_image::image::Image;
use odr_list::memory::Memory;
use step_terms::make;
use step_terms::word::of_words;

// Whether `count` bytes from an address on have a right, where the address is a constant.
#[tactic(auto, using(crate::proofs::Allowing::spans))]
fn all_allowed(image: &Image, right: Right, address: u32, count: u32) -> bool
    ensures { result ≡ all_allow right (opening_cells image.now) address count }
{
    let mut at = address;
    for _done in 0..count {
        if !right.is_allowed(image.opening(at)) {
            return false;
        }
        at = at.wrapping_add(1);
    }
    true
}

// The address of a byte of an access.
fn further<R: Rewrite>(
    pool: &mut TermPool<'_>,
    book: &R,
    address: TermId,
    index: u32,
) -> Result<TermId, Memory>
    requires { IsTerm pool.old 32 address.number }
    ensures made { IfOk result (λ id. IsMade pool.old pool.new (address.number ∷ []) 32
        (λ w. (value_at w pool.old address.number + index) % 2 ^ 32) id.number) }
    ensures grows { Grows pool.old pool.new }
{
    let index = make::word(pool, index)?;
    of_words(pool, book, BinOp::Add, address, index)
}

/// Whether the byte at an index of an access has a right.
pub fn byte_allowed<R: Rewrite>(
    pool: &mut TermPool<'_>,
    book: &R,
    image: &Image,
    right: Right,
    address: TermId,
    index: u32,
) -> Result<TermId, Memory>
    requires { IsTerm pool.old 32 address.number }
    ensures made { IfOk result (λ id. IsMade pool.old pool.new (address.number ∷ []) 1
        (λ w. bit_of (allows right (opening_cells image.now ((value_at w pool.old address.number + index) % 2 ^ 32)))) id.number) }
    ensures grows { Grows pool.old pool.new }
{
    image.laws();
    let at = further(pool, book, address, index)?;
    allowed(pool, book, image.regions(), right, at)
}

// Whether `count` bytes from an address on have a right.
fn bytes_allowed<R: Rewrite>(
    pool: &mut TermPool<'_>,
    book: &R,
    image: &Image,
    right: Right,
    address: TermId,
    count: u32,
) -> Result<TermId, Memory>
    requires { IsTerm pool.old 32 address.number }
    ensures made { IfOk result (λ id. IsMade pool.old pool.new (address.number ∷ []) 1
        (λ w. bit_of (all_allow right (opening_cells image.now) (value_at w pool.old address.number) count)) id.number) }
    ensures grows { Grows pool.old pool.new }
{
    let width = pool.width(address);
    prove!(width == 32);
    let mut test = constant_bit(pool, true)?;
    for index in 0..count {
        let byte = byte_allowed(pool, book, image, right, address, index)?;
        test = both(pool, book, test, byte)?;
    }
    Ok(test)
}

/// Whether `count` bytes from an address on have a right. At a constant address this is a constant.
pub fn rights<R: Rewrite>(
    pool: &mut TermPool<'_>,
    book: &R,
    image: &Image,
    right: Right,
    address: TermId,
    count: u32,
) -> Result<TermId, Memory>
    requires { IsTerm pool.old 32 address.number }
    ensures made { IfOk result (λ id. IsMade pool.old pool.new (address.number ∷ []) 1
        (λ w. bit_of (all_allow right (opening_cells image.now) (value_at w pool.old address.number) count)) id.number) }
    ensures grows { Grows pool.old pool.new }
{
    let width = pool.width(address);
    prove!(width == 32);
    match pool.constant(address) {
        Some(place) => constant_bit(pool, all_allowed(image, right, place as u32, count)),
        None => bytes_allowed(pool, book, image, right, address, count),
    }
}

/// Whether the atomic instructions may use the word at an address.
pub fn usable<R: Rewrite>(
    pool: &mut TermPool<'_>,
    book: &R,
    image: &Image,
    address: TermId,
) -> Result<TermId, Memory>
    requires { IsTerm pool.old 32 address.number }
    ensures made { IfOk result (λ id. IsMade pool.old pool.new (address.number ∷ []) 1
        (λ w. bit_of (may_use image.now (value_at w pool.old address.number))) id.number) }
    ensures grows { Grows pool.old pool.new }
{
    let readable = rights(pool, book, image, Right::Read, address, 4)?;
    let writable = rights(pool, book, image, Right::Write, address, 4)?;
    let open = both(pool, book, readable, writable)?;
    let aligned = two_bits_are_zero(pool, book, address, 0)?;
    both(pool, book, aligned, open)
}
