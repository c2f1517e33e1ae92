//! The bytes that are read where none is written.
ghost use Rattle.std.specs.Prelude.{◌+◌, ◌≤◌, ◌^◌, IfOk};
ghost use Rattle.reader_parts.specs.Readings.{AreMadeInitial};
ghost use Rattle.step_terms.specs.Made.{Grows, IsTerm};

use bv_rewrite::rewrite::Rewrite;
use bv_terms::node::TermId;
use bv_terms::pool::TermPool;
use elf_image::image::Image;
use hit_terms::initial::initial;
use odr_list::list::List;
use odr_list::memory::Memory;
use std::alloc::Global;

/// Terms of so many bytes of an access before the first step, from an index on.
///
/// # Errors
///
/// `Memory` alone.
pub fn initial_terms<'a, R: Rewrite>(
    pool: &mut TermPool<'a>,
    alloc: Global,
    book: &R,
    image: &'a Image,
    address: TermId,
    index: u32,
    count: u32,
) -> Result<List<TermId>, Memory>
    requires address { IsTerm pool.old 32 address.number }
    requires fits { index + count ≤ 2 ^ 32 }
    ensures made { IfOk result (λ ids. AreMadeInitial pool.old pool.new image.now address.number index count ids) }
    ensures grows { Grows pool.old pool.new }
{
    let mut ids = List::new(alloc);
    for k in 0..count {
        let id = initial(pool, book, image, address, index + k)?;
        ids.push(id)?;
    }
    Ok(ids)
}
