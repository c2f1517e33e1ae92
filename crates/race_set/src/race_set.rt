//! The accesses that need an order, and where all other read bytes come from.
ghost use Rattle.std.specs.Prelude.{◌≡◌, ◌≢◌, ◌↔◌, ◌<◌, length, AllPairs, IfOk, Contains, if◌then◌else◌};
ghost use Rattle.std.specs.List.{filter_map, list_any};
ghost use Rattle.happens_before.specs.Table.{IsOrderOf};
ghost use Rattle.odr_log.specs.declared.log.Log.{Log};
ghost use Rattle.odr_log.specs.declared.log.Pos.{Pos};
ghost use Rattle.race_set.specs.declared.reading.Seen.{Seen};
ghost use Rattle.race_set.specs.Bytes.{is_unplaced_reader};
ghost use Rattle.race_set.specs.Accesses.{AreCounted, AreDifferent, IsListedBefore, shape_at};
ghost use Rattle.race_set.specs.Needs.{is_raced, is_searched, has_outcome, is_needed, AreNeeded};
ghost use Rattle.race_set.specs.Readings.{IsSeenBefore};
ghost use Rattle.race_set.specs.Races.{IsFixedReading, NeedsOrderAt};

use crate::matrix::Matrix;
use crate::outcome::{Outcome, open_outcomes};
use crate::put::put;
use crate::reading::{Reading, Seen, readings_of};
use crate::shape::AccessShape;
use happens_before::order::Order;
use odr_list::list::List;
use odr_list::memory::Memory;
use odr_log::log::Pos;
use std::alloc::{AllocError, Global};

/// The accesses that need an order, and the read bytes that need none.
#[derive(Debug, Drop)]
pub struct RaceSet {
    pub ordered: List<Pos>,
    pub seen: List<Seen>,
}

// The readings whose source is told.
fn seen_of(alloc: Global, readings: &[Reading]) -> Result<Vec<Seen>, AllocError>
    ensures { IfOk result (λ seen. seen.items ≡ filter_map (λ r. r.seen) readings.now) }
{
    readings
        .iter()
        .filter_map(|reading| reading.seen)
        .collect(alloc)
}

// Whether an access is the reader of a byte whose source isn't told, or may write it.
fn is_raced(readings: &[Reading], number: usize, shape: &AccessShape) -> bool
    ensures { result ≡ is_raced readings.now number shape.now }
{
    readings.iter().any(|r| r.is_raced_by(number, shape))
}

// Whether an access reads at an unknown address.
fn has_unplaced_reader(shapes: &[AccessShape]) -> bool
    ensures { result ≡ list_any is_unplaced_reader shapes.now }
{
    shapes.iter().any(|shape| shape.is_unplaced_reader())
}

// Whether an access reads at an unknown address, or writes while some access reads so.
fn is_searched(shapes: &[AccessShape], shape: &AccessShape) -> bool
    ensures { result ≡ is_searched shapes.now shape.now }
{
    shape.is_unplaced_reader() || shape.writes && has_unplaced_reader(shapes)
}

// Whether an access has part in an open outcome.
fn has_outcome(outcomes: &[Outcome], number: usize, shape: &AccessShape) -> bool
    ensures { result ≡ has_outcome outcomes.now number shape.now }
{
    outcomes.iter().any(|o| o.has_part(number, shape))
}

// Whether an access has part in a byte whose source isn't told, in a read at an unknown address or in an open outcome.
fn is_needed(
    shapes: &[AccessShape],
    readings: &[Reading],
    outcomes: &[Outcome],
    number: usize,
) -> bool
    requires number_in { number < length shapes.now }
    ensures { result ≡ is_needed shapes.now readings.now outcomes.now number }
{
    let shape = &shapes[number];
    is_raced(readings, number, shape)
        || is_searched(shapes, shape)
        || has_outcome(outcomes, number, shape)
}

// The position of an access that needs an order.
fn needed_at(
    shapes: &[AccessShape],
    readings: &[Reading],
    outcomes: &[Outcome],
    number: usize,
) -> Option<Pos>
    requires number_in { number < length shapes.now }
    ensures { result ≡ (if is_needed shapes.now readings.now outcomes.now number then Some (shape_at shapes.now number).pos else None) }
{
    if is_needed(shapes, readings, outcomes, number) {
        Some(shapes[number].pos)
    } else {
        None
    }
}

// The positions of the accesses that need an order.
fn ordered_of(
    alloc: Global,
    shapes: &[AccessShape],
    readings: &[Reading],
    outcomes: &[Outcome],
) -> Result<List<Pos>, Memory>
    ensures { IfOk result (λ ordered. AreNeeded shapes.now (is_needed shapes.now readings.now outcomes.now) (length shapes.now) ordered) }
{
    let mut ordered = List::new(alloc);
    for number in 0..shapes.len() {
        put(needed_at(shapes, readings, outcomes, number), &mut ordered)?;
    }
    Ok(ordered)
}

// What was found of readings and outcomes, by positions.
fn set_of(
    alloc: Global,
    shapes: &[AccessShape],
    readings: &[Reading],
    outcomes: &[Outcome],
) -> Result<RaceSet, Memory>
    ensures seen { IfOk result (λ set. set.seen ≡ filter_map (λ r. r.seen) readings.now) }
    ensures ordered { IfOk result (λ set. AreNeeded shapes.now (is_needed shapes.now readings.now outcomes.now) (length shapes.now) set.ordered) }
{
    let seen = seen_of(alloc, readings)?;
    let ordered = ordered_of(alloc, shapes, readings, outcomes)?;
    Ok(RaceSet {
        ordered,
        seen: List::of(seen),
    })
}

/// The read bytes that come from the same write, or from none, in every total order of the accesses that agrees with
/// the recorded one, whichever linked store-conditionals succeed and at whichever addresses the accesses without a
/// place are. And the accesses that read another byte or may write it; that read at an unknown address, or write while
/// one does; that are a store-conditional whose outcome is open or its load-reserved, or may write a byte of its word.
///
/// The accesses are counted steps of the log of the order, and no two are the same step. Both lists stand in the order
/// of the accesses, and the bytes of one access in the order of their numbers in its place.
///
/// # Errors
///
/// `Memory` alone.
pub fn open_accesses(
    alloc: Global,
    order: &Order,
    shapes: &[AccessShape],
) -> Result<RaceSet, Memory>
    ensures seen { IfOk result (λ set. (log : Log) → IsOrderOf order.now log → AreCounted log shapes.now → AreDifferent shapes.now
        → (s : Seen) → Contains set.seen s ↔ IsFixedReading log shapes.now s) }
    ensures ordered { IfOk result (λ set. (log : Log) → IsOrderOf order.now log → AreCounted log shapes.now → AreDifferent shapes.now
        → (p : Pos) → Contains set.ordered p ↔ NeedsOrderAt log shapes.now p) }
    ensures once { IfOk result (λ set. AreDifferent shapes.now → AllPairs (λ p q. p ≢ q) set.ordered) }
    ensures ordered_order { IfOk result (λ set. AllPairs (IsListedBefore shapes.now) set.ordered) }
    ensures seen_once { IfOk result (λ set. AreDifferent shapes.now
        → AllPairs (λ s t. s.reader ≡ t.reader → s.byte ≢ t.byte) set.seen) }
    ensures seen_order { IfOk result (λ set. AllPairs (IsSeenBefore shapes.now) set.seen) }
{
    let recorded = Matrix::of(alloc, order, shapes)?;
    let readings = readings_of(alloc, &recorded, shapes)?;
    let outcomes = open_outcomes(alloc, &recorded, shapes)?;
    let set = set_of(alloc, shapes, readings.as_slice(), outcomes.as_slice())?;
    Ok(set)
}
