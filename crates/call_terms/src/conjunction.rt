//! Constraints that both hold.
ghost use Rattle.std.specs.Prelude.{◌≡◌, [], ◌∷◌, IfOk};
ghost use Rattle.bv_terms.specs.Values.{value_at};
ghost use Rattle.step_terms.specs.Made.{Grows, IsTerm};
ghost use Rattle.call_terms.specs.Constraints.{HoldsWhere};

use access_terms::bits::both;
use bv_rewrite::rewrite::Rewrite;
use bv_terms::node::TermId;
use bv_terms::pool::TermPool;
use odr_list::memory::Memory;

/// A constraint that is met exactly where two are.
pub fn conjunction<R: Rewrite>(
    pool: &mut TermPool<'_>,
    book: &R,
    left: TermId,
    right: TermId,
) -> Result<TermId, Memory>
    requires left { IsTerm pool.old 1 left.number }
    requires right { IsTerm pool.old 1 right.number }
    ensures both { IfOk result (λ id. HoldsWhere pool.old pool.new (left.number ∷ right.number ∷ []) id.number
        (λ w. (value_at w pool.old left.number ≡ 1) × (value_at w pool.old right.number ≡ 1))) }
    ensures grows { Grows pool.old pool.new }
{
    let one = pool.width(left);
    prove!(one == 1);
    let other = pool.width(right);
    prove!(other == 1);
    both(pool, book, left, right)
}
