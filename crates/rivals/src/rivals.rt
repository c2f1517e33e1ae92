//! All accesses that may end a reservation.
ghost use Rattle.std.specs.Prelude.{◌≡◌, ◌↔◌, ℕ, ◌<◌, length, IsTrue, IfSome, IfNone, IfOk};
ghost use Rattle.happens_before.specs.Table.{IsOrderOf};
ghost use Rattle.odr_log.specs.declared.log.Log.{Log};
ghost use Rattle.race_set.specs.Accesses.{AreCounted};
ghost use Rattle.formula_parts.specs.Order.{ArePlaces, Setting};
ghost use Rattle.rivals.specs.Between.{AreBelow, AreRivals, AreRivalsBelow, IsConditionalIn, IsConditionOf, IsRivalOf, MayEnd, placed};

use happens_before::order::Order;
use odr_list::list::List;
use odr_list::memory::Memory;
use order_clauses::order_lit::OrderLit;
use order_vars::order_vars::OrderVars;
use outcome_parts::rival::Rival;
use race_set::shape::AccessShape;
use std::alloc::Global;

// Whether an access may end the reservation that another one has made for a third.
fn may_end(
    order: &Order,
    shapes: &[AccessShape],
    reserved: usize,
    access: usize,
    other: usize,
) -> bool
    requires reserved_in { reserved < length shapes.now }
    requires access_in { access < length shapes.now }
    requires other_in { other < length shapes.now }
    ensures { (log : Log) → IsOrderOf order.now log → AreCounted log shapes.now → IsTrue result ↔ MayEnd log shapes.now reserved access other }
{
    let shape = &shapes[other];
    if shape.pos.thread == shapes[access].pos.thread
        || !shape.may_write_word(&shapes[reserved].place)
    {
        return false;
    }
    !order.before(shape.pos, shapes[reserved].pos) && !order.before(shapes[access].pos, shape.pos)
}

// What says that one access stands before another.
fn condition_between(
    order: &Order,
    shapes: &[AccessShape],
    places: &[Option<usize>],
    vars: &OrderVars,
    first: usize,
    second: usize,
) -> OrderLit
    requires places { length places.now ≡ length shapes.now }
    requires below { AreBelow (length vars.now.chosen) places.now }
    requires first_in { first < length shapes.now }
    requires second_in { second < length shapes.now }
    ensures { (log : Log) → IsOrderOf order.now log → AreCounted log shapes.now
        → IsConditionOf (placed log shapes.now places.now vars.now.ordered.table) first second result }
{
    if order.before(shapes[first].pos, shapes[second].pos) {
        return OrderLit::Always;
    }
    match (places[first], places[second]) {
        (Some(i), Some(j)) => vars.lit_at(i, j),
        _ => OrderLit::Never,
    }
}

// An access as a rival, where it may end the reservation.
fn rival_of(
    order: &Order,
    shapes: &[AccessShape],
    places: &[Option<usize>],
    vars: &OrderVars,
    reserved: usize,
    access: usize,
    other: usize,
) -> Option<Rival>
    requires places { length places.now ≡ length shapes.now }
    requires below { AreBelow (length vars.now.chosen) places.now }
    requires reserved_in { reserved < length shapes.now }
    requires access_in { access < length shapes.now }
    requires other_in { other < length shapes.now }
    ensures number { IfSome result (λ rival. rival.access ≡ other) }
    ensures rival { IfSome result (λ rival. (log : Log) → IsOrderOf order.now log → AreCounted log shapes.now
        → IsRivalOf (placed log shapes.now places.now vars.now.ordered.table) reserved access rival) }
    ensures none { IfNone result ((log : Log) → IsOrderOf order.now log → AreCounted log shapes.now → MayEnd log shapes.now reserved access other → ⊥) }
{
    if !may_end(order, shapes, reserved, access, other) {
        return None;
    }
    Some(Rival {
        access: other,
        after: condition_between(order, shapes, places, vars, reserved, other),
        before: condition_between(order, shapes, places, vars, other, access),
    })
}

/// All accesses of other threads that may write to the word of a load-reserved, and aren't recorded to stand before it nor after
/// the store-conditional that looks back to it: in their order, each with what says that it stands after the one and before the other.
///
/// # Errors
///
/// `Memory` alone.
pub fn rivals_of(
    alloc: Global,
    order: &Order,
    shapes: &[AccessShape],
    places: &[Option<usize>],
    vars: &OrderVars,
    reserved: usize,
    access: usize,
) -> Result<List<Rival>, Memory>
    requires places { length places.now ≡ length shapes.now }
    requires below { AreBelow (length vars.now.chosen) places.now }
    requires reserved_in { reserved < length shapes.now }
    requires access_in { access < length shapes.now }
    ensures exact { IfOk result (λ rivals. (log : Log) → IsOrderOf order.now log → AreCounted log shapes.now
        → AreRivalsBelow (placed log shapes.now places.now vars.now.ordered.table) reserved access (length shapes.now) rivals) }
    ensures rivals { IfOk result (λ rivals. (setting : Setting) (count : ℕ) → IsConditionalIn setting order.now shapes.now places.now vars.now reserved access
        → ArePlaces (length setting.accesses) count setting.places → AreRivals setting count reserved access rivals) }
{
    let mut rivals = List::new(alloc);
    for other in 0..shapes.len() {
        if let Some(rival) = rival_of(order, shapes, places, vars, reserved, access, other) {
            rivals.push(rival)?;
        }
    }
    Ok(rivals)
}
