//! The rights of one byte, at an address that is a term.
ghost use Rattle.std.specs.Prelude.{◌≡◌, [], ◌∷◌, All, IfOk, if◌then◌else◌};
ghost use Rattle.bv_terms.specs.BitVectors.{bit_of};
ghost use Rattle.bv_terms.specs.Values.{value_at};
ghost use Rattle.elf_image.specs.Layout.{IsPlaced, covers};
ghost use Rattle.elf_image.specs.Memory.{in_stack};
ghost use Rattle.step_terms.specs.Made.{Grows, IsMade, IsTerm};
ghost use Rattle.access_terms.specs.Rights.{allows_in, grants};

use crate::bits::{both, constant_bit, two_bits_are_zero, within};
use crate::right::Right;
use bv_rewrite::rewrite::Rewrite;
use bv_terms::node::TermId;
use bv_terms::pool::TermPool;
use elf_image::region::Region;
use odr_list::memory::Memory;
use step_terms::make::choice;

// Whether an address is in one of the eight stacks.
fn in_stack<R: Rewrite>(
    pool: &mut TermPool<'_>,
    book: &R,
    address: TermId,
) -> Result<TermId, Memory>
    requires { IsTerm pool.old 32 address.number }
    ensures made { IfOk result (λ id. IsMade pool.old pool.new (address.number ∷ []) 1
        (λ w. bit_of (in_stack (value_at w pool.old address.number))) id.number) }
    ensures grows { Grows pool.old pool.new }
{
    let near = within(pool, book, address, 0x7000_0000, 0x8_0000)?;
    let low = two_bits_are_zero(pool, book, address, 14)?;
    both(pool, book, near, low)
}

// Whether an address has a right: that of a region, where it is in the region.
fn in_region<R: Rewrite>(
    pool: &mut TermPool<'_>,
    book: &R,
    region: &Region,
    right: Right,
    address: TermId,
    otherwise: TermId,
) -> Result<TermId, Memory>
    requires placed { IsPlaced region.now }
    requires address { IsTerm pool.old 32 address.number }
    requires otherwise { IsTerm pool.old 1 otherwise.number }
    ensures made { IfOk result (λ id. IsMade pool.old pool.new (address.number ∷ otherwise.number ∷ []) 1
        (λ w. if covers region.now (value_at w pool.old address.number) then bit_of (grants right region.now.perm)
        else value_at w pool.old otherwise.number) id.number) }
    ensures grows { Grows pool.old pool.new }
{
    let covered = within(pool, book, address, region.start, region.bytes.len() as u32)?;
    let own = constant_bit(pool, right.is_granted(region.perm))?;
    choice(pool, covered, own, otherwise)
}

/// Whether the byte at an address has a right before the first step.
pub fn allowed<R: Rewrite>(
    pool: &mut TermPool<'_>,
    book: &R,
    regions: &[Region],
    right: Right,
    address: TermId,
) -> Result<TermId, Memory>
    requires placed { All IsPlaced regions.now }
    requires address { IsTerm pool.old 32 address.number }
    ensures made { IfOk result (λ id. IsMade pool.old pool.new (address.number ∷ []) 1
        (λ w. bit_of (allows_in right regions.now (value_at w pool.old address.number))) id.number) }
    ensures grows { Grows pool.old pool.new }
{
    let mut test = in_stack(pool, book, address)?;
    for done in 0..regions.len() {
        let region = &regions[regions.len() - 1 - done];
        test = in_region(pool, book, region, right, address, test)?;
    }
    Ok(test)
}
