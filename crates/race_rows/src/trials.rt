//! Random lists of accesses, beside the trial of all their orders.

use crate::lists::Random;
use crate::shapes::{has, order_of};
use happens_before::order::Order;
use odr_log::log::Pos;
use race_set::race_set::{RaceSet, open_accesses};
use race_set::reading::Seen;
use race_set::shape::{AccessShape, Span};
use std::alloc::{AllocError, Global};
use std::test::Fail;

/// All accesses of a list, in some order.
type Row = Vec<AccessShape>;

/// The order of a list that has a number among all its orders.
fn row_of(alloc: Global, shapes: &[AccessShape], number: usize) -> Result<Row, AllocError> {
    let mut row = Vec::new(alloc);
    let mut rest = number;
    for (count, shape) in shapes.iter().enumerate() {
        let places = count.saturating_add(1);
        let at = (rest % places).min(row.len());
        row.insert(at, *shape)?;
        rest /= places;
    }
    Ok(row)
}

/// Whether no access stands behind one that it is recorded to stand before.
fn agrees(order: &Order, row: &[AccessShape]) -> bool {
    for (count, later) in row.iter().enumerate() {
        for earlier in row.iter().take(count) {
            if order.before(later.pos, earlier.pos) {
                return false;
            }
        }
    }
    true
}

fn factorial(count: usize) -> usize {
    let mut product = 1usize;
    for number in 1..=count {
        product = product.saturating_mul(number);
    }
    product
}

/// All orders of a list that agree with the recorded one.
fn rows_of(alloc: Global, order: &Order, shapes: &[AccessShape]) -> Result<Vec<Row>, AllocError> {
    let mut rows = Vec::new(alloc);
    for number in 0..factorial(shapes.len()) {
        let row = row_of(alloc, shapes, number)?;
        if agrees(order, row.as_slice()) {
            rows.push(row)?;
        }
    }
    Ok(rows)
}

fn is_in(span: Span, byte: u32) -> bool {
    for number in 0..span.len {
        if span.first.wrapping_add(number) == byte {
            return true;
        }
    }
    false
}

fn may_write(shape: &AccessShape, byte: u32) -> bool {
    match shape.place {
        Some(span) => shape.writes && is_in(span, byte),
        None => shape.writes,
    }
}

/// Whether no choice of outcomes and addresses keeps an access that may write from it.
fn is_sure(shape: &AccessShape) -> bool {
    shape.place.is_some() && shape.link.is_none()
}

/// From where a byte comes: no order was tried, always from here, or now from here and now from there.
#[derive(Clone, Copy, PartialEq)]
enum From {
    Nowhere,
    One(Option<Pos>),
    Many,
}

impl From {
    fn joined(self, other: From) -> From {
        match (self, other) {
            (From::Nowhere, from) => from,
            (from, other) if from == other => from,
            _ => From::Many,
        }
    }
}

/// From where a byte comes in one order: what surely writes hides all before it, and what may write adds to it.
fn from_in(row: &[AccessShape], reader: Pos, byte: u32) -> From {
    let mut from = From::One(None);
    for shape in row {
        if shape.pos == reader {
            return from;
        }
        if may_write(shape, byte) {
            from = if is_sure(shape) {
                From::One(Some(shape.pos))
            } else {
                From::Many
            };
        }
    }
    From::Many
}

fn from_of(rows: &[Row], reader: Pos, byte: u32) -> From {
    let mut from = From::Nowhere;
    for row in rows {
        from = from.joined(from_in(row.as_slice(), reader, byte));
    }
    from
}

/// A reader with one of its bytes.
type Reading = (Pos, u32);

/// All bytes that are read at known places.
fn readings_of(alloc: Global, shapes: &[AccessShape]) -> Result<Vec<Reading>, AllocError> {
    let mut readings = Vec::new(alloc);
    for shape in shapes {
        if let (true, Some(span)) = (shape.reads, shape.place) {
            for number in 0..span.len {
                readings.push((shape.pos, span.first.wrapping_add(number)))?;
            }
        }
    }
    Ok(readings)
}

/// The bytes that always come from one place, and those that don't.
fn sort_readings(
    alloc: Global,
    rows: &[Row],
    shapes: &[AccessShape],
) -> Result<(Vec<Seen>, Vec<Reading>), AllocError> {
    let mut seen = Vec::new(alloc);
    let mut raced = Vec::new(alloc);
    for (reader, byte) in &readings_of(alloc, shapes)? {
        match from_of(rows, *reader, *byte) {
            From::One(from) => seen.push(Seen {
                reader: *reader,
                byte: *byte,
                from,
            })?,
            _ => raced.push((*reader, *byte))?,
        }
    }
    Ok((seen, raced))
}

/// Which of two steps stands first in an order.
fn is_first(row: &[AccessShape], a: Pos, b: Pos) -> bool {
    for shape in row {
        if shape.pos == a || shape.pos == b {
            return shape.pos == a;
        }
    }
    false
}

/// Whether two steps stand in both orders.
fn is_open(rows: &[Row], a: Pos, b: Pos) -> bool {
    rows.iter().any(|row| is_first(row.as_slice(), a, b))
        && rows.iter().any(|row| is_first(row.as_slice(), b, a))
}

/// Whether an access may write a byte of the word at a place.
fn may_write_word(shape: &AccessShape, place: Option<Span>) -> bool {
    match place {
        Some(span) => (0..4u32).any(|byte| may_write(shape, span.first & 0xffff_fffc | byte)),
        None => shape.writes,
    }
}

/// A store-conditional and the load-reserved that it looks back to.
type Pair = (AccessShape, AccessShape);

fn is_disturbed(rows: &[Row], shapes: &[AccessShape], pair: &Pair) -> bool {
    let (conditional, reserved) = pair;
    shapes.iter().any(|other| {
        other.pos.thread != conditional.pos.thread
            && may_write_word(other, reserved.place)
            && (is_open(rows, other.pos, conditional.pos) || is_open(rows, other.pos, reserved.pos))
    })
}

/// The store-conditionals whose outcome is open.
fn open_pairs(
    alloc: Global,
    rows: &[Row],
    shapes: &[AccessShape],
) -> Result<Vec<Pair>, AllocError> {
    let mut pairs = Vec::new(alloc);
    for conditional in shapes {
        for reserved in shapes {
            let pair = (*conditional, *reserved);
            if conditional.link == Some(reserved.pos) && is_disturbed(rows, shapes, &pair) {
                pairs.push(pair)?;
            }
        }
    }
    Ok(pairs)
}

fn is_unplaced(shape: &AccessShape) -> bool {
    shape.reads && shape.place.is_none()
}

/// Whether an access needs an order by what the trial showed.
fn is_needed(
    shapes: &[AccessShape],
    raced: &[Reading],
    pairs: &[Pair],
    shape: &AccessShape,
) -> bool {
    is_unplaced(shape)
        || shape.writes && shapes.iter().any(|other| is_unplaced(other))
        || raced.iter().any(|(reader, byte)| shape.pos == *reader || may_write(shape, *byte))
        || pairs.iter().any(|(conditional, reserved)| {
            shape.pos == conditional.pos
                || shape.pos == reserved.pos
                || may_write_word(shape, reserved.place)
        })
}

fn needed_steps(
    alloc: Global,
    shapes: &[AccessShape],
    raced: &[Reading],
    pairs: &[Pair],
) -> Result<Vec<Pos>, AllocError> {
    let mut steps = Vec::new(alloc);
    for shape in shapes {
        if is_needed(shapes, raced, pairs, shape) {
            steps.push(shape.pos)?;
        }
    }
    Ok(steps)
}

/// Whether what is found is what the trial of all orders shows.
fn is_so(
    alloc: Global,
    order: &Order,
    shapes: &[AccessShape],
    set: &RaceSet,
) -> Result<bool, AllocError> {
    let rows = rows_of(alloc, order, shapes)?;
    let (seen, raced) = sort_readings(alloc, rows.as_slice(), shapes)?;
    let pairs = open_pairs(alloc, rows.as_slice(), shapes)?;
    let steps = needed_steps(alloc, shapes, raced.as_slice(), pairs.as_slice())?;
    Ok(has(&set.seen, seen.as_slice()) && has(&set.ordered, steps.as_slice()))
}

/// What is found of a list.
fn race_set_of(alloc: Global, order: &Order, shapes: &[AccessShape]) -> Result<RaceSet, Fail> {
    Ok(open_accesses(alloc, order, shapes)?)
}

/// Whether a random list has what the trial shows, and how many bytes are seen and accesses listed.
fn try_list(alloc: Global, random: &mut Random) -> Result<(bool, usize, usize), Fail> {
    let (log, shapes) = random.list(alloc)?;
    let order = order_of(alloc, log)?;
    let set = race_set_of(alloc, &order, shapes.as_slice())?;
    let so = is_so(alloc, &order, shapes.as_slice(), &set)?;
    Ok((so, set.seen.len(), set.ordered.len()))
}

#[test]
fn lists_have_what_all_orders_show(rt: HostRuntime) -> Result<(), Fail> {
    let mut random = Random { state: 20 };
    let mut counts = (0usize, 0usize);
    for list in 0..300 {
        let (so, seen, ordered) = try_list(rt.alloc(), &mut random)?;
        assert!(rt; so, "list {list}");
        counts = (
            counts.0.saturating_add(seen),
            counts.1.saturating_add(ordered),
        );
    }
    assert!(rt; counts.0 > 300 && counts.1 > 300);
    Ok(())
}
