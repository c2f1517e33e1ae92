//! Whether a write hits a byte.
ghost use Rattle.std.specs.Prelude.{◌≡◌, [], ◌∷◌, IfOk};
ghost use Rattle.bv_terms.specs.BitVectors.{bit_of};
ghost use Rattle.bv_terms.specs.Values.{value_at};
ghost use Rattle.hit_terms.specs.Hits.{is_hit};
ghost use Rattle.step_terms.specs.Made.{Grows, IsMade, IsTerm};

use crate::place::same_place;
use access_terms::bits::both;
use bv_rewrite::rewrite::Rewrite;
use bv_terms::node::TermId;
use bv_terms::pool::TermPool;
use odr_list::memory::Memory;

/// Whether a write takes place, by its guard, and its byte at an index has the address of the byte at an index of another access.
pub fn hit<R: Rewrite>(
    pool: &mut TermPool<'_>,
    book: &R,
    guard: TermId,
    address: TermId,
    index: u32,
    other: TermId,
    other_index: u32,
) -> Result<TermId, Memory>
    requires guard { IsTerm pool.old 1 guard.number }
    requires address { IsTerm pool.old 32 address.number }
    requires other { IsTerm pool.old 32 other.number }
    ensures made { IfOk result (λ id. IsMade pool.old pool.new (guard.number ∷ address.number ∷ other.number ∷ []) 1
        (λ w. bit_of (is_hit (value_at w pool.old guard.number) (value_at w pool.old address.number) index (value_at w pool.old other.number) other_index)) id.number) }
    ensures grows { Grows pool.old pool.new }
{
    let width = pool.width(guard);
    prove!(width == 1);
    let same = same_place(pool, book, address, index, other, other_index)?;
    both(pool, book, guard, same)
}
