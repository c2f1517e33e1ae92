//! The byte of memory before the first step, at an address that is a term.
ghost use Rattle.std.specs.Prelude.{◌≡◌, ◌-◌, ◌^◌, ◌<◌, [], ◌∷◌, All, IfOk, slice_index, if◌then◌else◌};
ghost use Rattle.bv_terms.specs.BitVectors.{byte_value};
ghost use Rattle.bv_terms.specs.Values.{value_at};
ghost use Rattle.elf_image.specs.Layout.{IsPlaced, covers, region_at};
ghost use Rattle.elf_image.specs.Memory.{byte_in, cell_in, opening_cells};
ghost use Rattle.hit_terms.specs.Hits.{place_of};
ghost use Rattle.step_terms.specs.Made.{Grows, IsMade, IsTerm};

use crate::place::place_of;
use access_terms::bits::within;
use bv_rewrite::rewrite::Rewrite;
use bv_terms::node::{Node, TermId};
use bv_terms::pool::TermPool;
use elf_image::image::Image;
use elf_image::region::Region;
use odr_list::memory::Memory;
use step_terms::make::{choice, constant};

// The byte of an address that is a constant.
fn byte_of(image: &Image, address: u32) -> u8
    ensures { result ≡ byte_in (opening_cells image.now address) }
{
    match image.opening(address) {
        Some(cell) => cell.byte,
        None => 0,
    }
}

// The byte of a region, 0 outside it.
fn selected<'a>(
    pool: &mut TermPool<'a>,
    region: &'a Region,
    address: TermId,
) -> Result<TermId, Memory>
    requires placed { IsPlaced region.now }
    requires address { IsTerm pool.old 32 address.number }
    ensures made { IfOk result (λ id. IsMade pool.old pool.new (address.number ∷ []) 8
        (λ w. byte_value region.now.start region.now.bytes (value_at w pool.old address.number)) id.number) }
    ensures grows { Grows pool.old pool.new }
{
    pool.add(Node::ByteSelect {
        first: region.start,
        bytes: region.bytes.as_slice(),
        index: address,
    })
}

// The byte at an address: that of a region, where it is in the region.
fn in_region<'a, R: Rewrite>(
    pool: &mut TermPool<'a>,
    book: &R,
    region: &'a Region,
    address: TermId,
    otherwise: TermId,
) -> Result<TermId, Memory>
    requires placed { IsPlaced region.now }
    requires address { IsTerm pool.old 32 address.number }
    requires otherwise { IsTerm pool.old 8 otherwise.number }
    ensures made { IfOk result (λ id. IsMade pool.old pool.new (address.number ∷ otherwise.number ∷ []) 8
        (λ w. if covers region.now (value_at w pool.old address.number) then slice_index region.now.bytes (value_at w pool.old address.number - region.now.start)
        else value_at w pool.old otherwise.number) id.number) }
    ensures grows { Grows pool.old pool.new }
{
    let covered = within(pool, book, address, region.start, region.bytes.len() as u32)?;
    let own = selected(pool, region, address)?;
    choice(pool, covered, own, otherwise)
}

// The byte at an address before the first step.
fn searched<'a, R: Rewrite>(
    pool: &mut TermPool<'a>,
    book: &R,
    regions: &'a [Region],
    address: TermId,
) -> Result<TermId, Memory>
    requires placed { All IsPlaced regions.now }
    requires address { IsTerm pool.old 32 address.number }
    ensures made { IfOk result (λ id. IsMade pool.old pool.new (address.number ∷ []) 8
        (λ w. byte_in (cell_in (region_at regions.now (value_at w pool.old address.number)) (value_at w pool.old address.number))) id.number) }
    ensures grows { Grows pool.old pool.new }
{
    let mut byte = constant(pool, 8, 0)?;
    for done in 0..regions.len() {
        let region = &regions[regions.len() - 1 - done];
        byte = in_region(pool, book, region, address, byte)?;
    }
    Ok(byte)
}

/// The byte at an index of an access before the first step. At a constant address this is a constant.
pub fn initial<'a, R: Rewrite>(
    pool: &mut TermPool<'a>,
    book: &R,
    image: &'a Image,
    address: TermId,
    index: u32,
) -> Result<TermId, Memory>
    requires { IsTerm pool.old 32 address.number }
    ensures made { IfOk result (λ id. IsMade pool.old pool.new (address.number ∷ []) 8
        (λ w. byte_in (opening_cells image.now (place_of (value_at w pool.old address.number) index))) id.number) }
    ensures grows { Grows pool.old pool.new }
{
    let width = pool.width(address);
    prove!(width == 32);
    image.laws();
    let place = place_of(pool, book, address, index)?;
    match pool.constant(place) {
        Some(place) => constant(pool, 8, u64::from(byte_of(image, place as u32))),
        None => searched(pool, book, image.regions(), place),
    }
}
