//! Which of chosen steps is recorded to stand before which.
ghost use Rattle.std.specs.Prelude.{◌≡◌, ℕ, ◌↔◌, ◌<◌, ◌+◌, ◌*◌, true, false, length, get_or, All, IfOk};
ghost use Rattle.happens_before.specs.Table.{IsOrderOf};
ghost use Rattle.odr_log.specs.declared.log.Log.{Log};
ghost use Rattle.order_vars.specs.Chosen.{position};
ghost use Rattle.rv_model.specs.RecordedOrder.{Counted, RecordedOrder};

use happens_before::order::Order;
use odr_list::list::List;
use odr_list::memory::Memory;
use odr_log::log::Pos;
use std::alloc::Global;

/// Row by row, whether one of chosen steps is recorded to stand before another.
///
/// # Errors
///
/// `Memory` alone.
pub fn matrix_of(alloc: Global, order: &Order, chosen: &[Pos]) -> Result<List<bool>, Memory>
    ensures square { IfOk result (λ cells. length cells ≡ length chosen.now * length chosen.now) }
    ensures cells { IfOk result (λ cells. (log : Log) → IsOrderOf order.now log → All (Counted log) chosen.now
        → (i j : ℕ) → i < length chosen.now → j < length chosen.now
        → (get_or cells (i * length chosen.now + j) false ≡ true) ↔ RecordedOrder log (position chosen.now i) (position chosen.now j)) }
{
    let count = chosen.len();
    let Some(cells) = count.checked_mul(count) else {
        return Err(Memory);
    };
    let mut recorded = List::new(alloc);
    for k in 0..cells {
        recorded.push(order.before(chosen[k / count], chosen[k % count]))?;
    }
    Ok(recorded)
}
