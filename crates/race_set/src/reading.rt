//! All bytes that accesses with a known place read, with their sources.
ghost use Rattle.std.specs.Prelude.{◌≡◌, ◌<◌, ◌+◌, true, length, AllPairs, IfOk, OnOk};
ghost use Rattle.race_set.specs.Bytes.{covers, reads_byte};
ghost use Rattle.race_set.specs.Accesses.{shape_at};
ghost use Rattle.race_set.specs.Places.{recorded_in, IsMatrixOf, IsWithin};
ghost use Rattle.race_set.specs.Readings.{seen_from, is_raced_by, IsReading, AddsReadings, IsReadBy, AreReadings, IsReadBefore, AreBefore};

use crate::matrix::Matrix;
use crate::shape::{AccessShape, Span};
use crate::source::{Source, source_of};
use odr_list::list::List;
use odr_list::memory::Memory;
use odr_log::log::Pos;
use std::alloc::Global;

/// A byte that an access reads, and the write from which it comes in every run; without one it is the initial byte.
#[derive(Clone, Copy, Debug, PartialEq, Eq)]
pub struct Seen {
    pub reader: Pos,
    pub byte: u32,
    pub from: Option<Pos>,
}

/// A byte that the access with a number reads, and where it comes from, if the recorded order tells that.
#[derive(Clone, Copy, Debug, PartialEq, Eq)]
pub struct Reading {
    pub reader: usize,
    pub byte: u32,
    pub seen: Option<Seen>,
}

impl Reading {
    /// Whether the source isn't told, and the access with a number is the reader or may write the byte.
    pub fn is_raced_by(&self, number: usize, shape: &AccessShape) -> bool
        ensures { result ≡ is_raced_by self.now number shape.now }
    {
        self.seen.is_none() && (self.reader == number || shape.may_write(self.byte))
    }
}

// What is seen from a source, by positions.
fn seen_from(shapes: &[AccessShape], reader: usize, byte: u32, source: Source) -> Option<Seen>
    requires reader_in { reader < length shapes.now }
    requires within { IsWithin (length shapes.now) source }
    ensures { result ≡ seen_from shapes.now reader byte source }
{
    let reader = shapes[reader].pos;
    match source {
        Source::Initial => Some(Seen {
            reader,
            byte,
            from: None,
        }),
        Source::Write(writer) => Some(Seen {
            reader,
            byte,
            from: Some(shapes[writer].pos),
        }),
        Source::Open => None,
    }
}

// A byte that an access reads, with its source.
fn reading_of(recorded: &Matrix, shapes: &[AccessShape], reader: usize, byte: u32) -> Reading
    requires matrix { IsMatrixOf recorded.now shapes.now }
    requires reader_in { reader < length shapes.now }
    requires reads { reads_byte byte (shape_at shapes.now reader) ≡ true }
    ensures reading { IsReading shapes.now (recorded_in recorded.now) result }
    ensures reader { result.reader ≡ reader }
    ensures byte { result.byte ≡ byte }
{
    let source = source_of(recorded, shapes, byte, reader);
    let seen = seen_from(shapes, reader, byte, source);
    Reading { reader, byte, seen }
}

// Adds the bytes of a reader's place, in the order of their numbers there.
fn add_span(
    recorded: &Matrix,
    shapes: &[AccessShape],
    reader: usize,
    span: Span,
    readings: &mut List<Reading>,
) -> Result<(), Memory>
    requires matrix { IsMatrixOf recorded.now shapes.now }
    requires reader_in { reader < length shapes.now }
    requires reads { (shape_at shapes.now reader).reads ≡ true }
    requires place { (shape_at shapes.now reader).place ≡ Some span }
    ensures readings { OnOk result (AddsReadings shapes.now (recorded_in recorded.now)
        (λ x byte. (x ≡ reader) × (covers byte span ≡ true)) readings.old readings.new) }
    ensures order { OnOk result (AreBefore shapes.now reader 0 readings.old → AreBefore shapes.now reader span.len readings.new) }
{
    for i in 0..span.len {
        readings.push(reading_of(recorded, shapes, reader, span.byte(i)))?;
    }
    Ok(())
}

// Adds the bytes that one access reads, where its place is known.
fn add_reader(
    recorded: &Matrix,
    shapes: &[AccessShape],
    reader: usize,
    readings: &mut List<Reading>,
) -> Result<(), Memory>
    requires matrix { IsMatrixOf recorded.now shapes.now }
    requires reader_in { reader < length shapes.now }
    ensures readings { OnOk result (AddsReadings shapes.now (recorded_in recorded.now) (IsReadBy shapes.now reader) readings.old readings.new) }
    ensures order { OnOk result (AreBefore shapes.now reader 0 readings.old → AreBefore shapes.now (reader + 1) 0 readings.new) }
{
    if !shapes[reader].reads {
        return Ok(());
    }
    match shapes[reader].place {
        Some(span) => add_span(recorded, shapes, reader, span, readings),
        None => Ok(()),
    }
}

/// All bytes that accesses with a known place read, with their sources, in the order of the accesses and of the numbers
/// of bytes in their places.
///
/// # Errors
///
/// `Memory` alone.
pub fn readings_of(
    alloc: Global,
    recorded: &Matrix,
    shapes: &[AccessShape],
) -> Result<List<Reading>, Memory>
    requires matrix { IsMatrixOf recorded.now shapes.now }
    ensures readings { IfOk result (λ readings. AreReadings shapes.now (recorded_in recorded.now) readings) }
    ensures order { IfOk result (λ readings. AllPairs (IsReadBefore shapes.now) readings) }
{
    let mut readings = List::new(alloc);
    for reader in 0..shapes.len() {
        add_reader(recorded, shapes, reader, &mut readings)?;
    }
    Ok(readings)
}
