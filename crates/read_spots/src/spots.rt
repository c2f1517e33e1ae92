//! All spots at which a byte may have been written.
ghost use Rattle.std.specs.Prelude.{◌≡◌, ◌↔◌, ℕ, ◌+◌, ◌<◌, ◌≤◌, ◌^◌, length, IsTrue, IfOk, OnOk};
ghost use Rattle.happens_before.specs.Table.{IsOrderOf};
ghost use Rattle.odr_log.specs.declared.log.Log.{Log};
ghost use Rattle.race_set.specs.Accesses.{AreCounted, shape_at};
ghost use Rattle.formula_parts.specs.Order.{Setting};
ghost use Rattle.read_spots.specs.Spots.{AreSpots, AreSpotsBefore, IsOpenByte, IsReadIn, IsSpotOf, MayMeet, MayPrecede, Sought, sought};

use happens_before::order::Order;
use odr_list::list::List;
use odr_list::memory::Memory;
use race_set::shape::{AccessShape, Span};
use reader_parts::reading::Spot;
use std::alloc::Global;
use thread_terms::access::Access;

// Whether one access may write before another one reads.
fn may_precede(order: &Order, shapes: &[AccessShape], reader: usize, writer: usize) -> bool
    requires reader_in { reader < length shapes.now }
    requires writer_in { writer < length shapes.now }
    ensures { (log : Log) → IsOrderOf order.now log → AreCounted log shapes.now → IsTrue result ↔ MayPrecede log shapes.now reader writer }
{
    if writer == reader || !shapes[writer].writes {
        return false;
    }
    !order.before(shapes[reader].pos, shapes[writer].pos)
}

// The first of so many bytes of a write that may be a byte that is read, and the end of these bytes.
fn bytes_at(writer: &Option<Span>, count: u64, reader: &Option<Span>, index: u32) -> (u64, u64)
    requires { count ≤ 2 ^ 32 }
    ensures first { result.0 ≤ result.1 }
    ensures end { result.1 ≤ count }
    ensures meets { (byte : ℕ) → result.0 ≤ byte → byte < result.1 → MayMeet writer.now reader.now byte index }
    ensures all { (byte : ℕ) → byte < count → MayMeet writer.now reader.now byte index → (result.0 ≤ byte) × (byte < result.1) }
{
    let (Some(from), Some(to)) = (writer, reader) else {
        return (0, count);
    };
    let byte = u64::from(to.byte(index).wrapping_sub(from.first));
    if byte < count {
        (byte, byte + 1)
    } else {
        (0, 0)
    }
}

// Adds spots of an access that has a place, at bytes in a row.
fn add_bytes(
    access: usize,
    at: usize,
    first: u64,
    end: u64,
    spots: &mut List<Spot>,
) -> Result<(), Memory>
    requires row { first ≤ end }
    requires fits { end ≤ 2 ^ 32 }
    ensures { OnOk result ((s : Sought) → ((byte : ℕ) → first ≤ byte → byte < end → IsSpotOf s (record { access = access; byte = byte; at = at }))
        → AreSpotsBefore s access first spots.old → AreSpotsBefore s access end spots.new) }
{
    for byte in first..end {
        spots.push(Spot {
            access,
            byte: byte as u32,
            at,
        })?;
    }
    Ok(())
}

// Adds the spots of one access.
fn add_access(
    order: &Order,
    accesses: &[Access],
    shapes: &[AccessShape],
    places: &[Option<usize>],
    reader: usize,
    index: u32,
    writer: usize,
    spots: &mut List<Spot>,
) -> Result<(), Memory>
    requires shapes { length shapes.now ≡ length accesses.now }
    requires places { length places.now ≡ length accesses.now }
    requires reader { reader < length accesses.now }
    requires writer { writer < length accesses.now }
    ensures { OnOk result ((log : Log) → IsOrderOf order.now log → AreCounted log shapes.now
        → AreSpotsBefore (sought log accesses.now shapes.now places.now reader index) writer 0 spots.old
        → AreSpotsBefore (sought log accesses.now shapes.now places.now reader index) (writer + 1) 0 spots.new) }
{
    let Some(at) = places[writer] else {
        return Ok(());
    };
    if !may_precede(order, shapes, reader, writer) {
        return Ok(());
    }
    let count = (accesses[writer].writes.len() as u64).min(1 << 32);
    let (first, end) = bytes_at(&shapes[writer].place, count, &shapes[reader].place, index);
    add_bytes(writer, at, first, end, spots)?;
    Ok(())
}

/// All spots at which a byte that an access reads may have been written: of each other access that may write and isn't
/// recorded to stand after the reader, the byte at the address that is read, where both are known, else all bytes.
/// In the order of the accesses and of their bytes.
///
/// # Errors
///
/// `Memory` alone.
pub fn spots_of(
    alloc: Global,
    order: &Order,
    accesses: &[Access],
    shapes: &[AccessShape],
    places: &[Option<usize>],
    reader: usize,
    index: u32,
) -> Result<List<Spot>, Memory>
    requires shapes { length shapes.now ≡ length accesses.now }
    requires places { length places.now ≡ length accesses.now }
    requires reader { reader < length accesses.now }
    ensures exact { IfOk result (λ spots. (log : Log) → IsOrderOf order.now log → AreCounted log shapes.now
        → AreSpotsBefore (sought log accesses.now shapes.now places.now reader index) (length accesses.now) 0 spots) }
    ensures spots { IfOk result (λ spots. (setting : Setting) → setting.accesses ≡ accesses.now → IsReadIn setting order.now shapes.now places.now reader index
        → IsOpenByte setting.log shapes.now reader index → AreSpots setting shapes.now places.now reader index spots) }
{
    let mut spots = List::new(alloc);
    for writer in 0..accesses.len() {
        add_access(
            order, accesses, shapes, places, reader, index, writer, &mut spots,
        )?;
    }
    Ok(spots)
}
