//! Where a read byte comes from, as far as the recorded order alone decides it.
ghost use Rattle.std.specs.Prelude.{◌≡◌, ◌↔◌, ℕ, ◌<◌, length, IsTrue, IfSome, Some};
ghost use Rattle.order_clauses.specs.Orders.{IsStrict};
ghost use Rattle.race_set.specs.Places.{IsSquare, recorded_in, IsMatrixOf, is_after, is_passed, is_later, later, IsInitial, ArePassed, IsCandidate, IsWrite, IsWithin, IsSource};

use crate::matrix::Matrix;
use crate::shape::AccessShape;

/// Where a read byte comes from: from no write, from that of the access with this number, or from one that the recorded
/// order doesn't tell.
#[derive(Clone, Copy, Debug, PartialEq, Eq)]
pub enum Source {
    Initial,
    Write(usize),
    Open,
}

// Whether an access is a reader or stands after it.
fn is_after(recorded: &Matrix, reader: usize, other: usize) -> bool
    requires square { IsSquare recorded.now }
    requires reader_in { reader < recorded.now.count }
    requires other_in { other < recorded.now.count }
    ensures { result ≡ is_after (recorded_in recorded.now) reader other }
{
    other == reader || recorded.has(reader, other)
}

// Whether an access is a writer or stands before it, or is a reader or stands after it.
fn is_passed(recorded: &Matrix, reader: usize, writer: usize, other: usize) -> bool
    requires square { IsSquare recorded.now }
    requires reader_in { reader < recorded.now.count }
    requires writer_in { writer < recorded.now.count }
    requires other_in { other < recorded.now.count }
    ensures { result ≡ is_passed (recorded_in recorded.now) reader writer other }
{
    is_after(recorded, other, writer) || is_after(recorded, reader, other)
}

// Whether each access that may write a byte is a reader or stands after it.
fn is_initial(recorded: &Matrix, shapes: &[AccessShape], byte: u32, reader: usize) -> bool
    requires matrix { IsMatrixOf recorded.now shapes.now }
    requires reader_in { reader < length shapes.now }
    ensures { IsTrue result ↔ IsInitial shapes.now (recorded_in recorded.now) byte reader }
{
    for other in 0..shapes.len() {
        if shapes[other].may_write(byte) && !is_after(recorded, reader, other) {
            return false;
        }
    }
    true
}

// Whether each access that may write a byte is a writer or stands before it, or is a reader or stands after it.
fn are_passed(
    recorded: &Matrix,
    shapes: &[AccessShape],
    byte: u32,
    reader: usize,
    writer: usize,
) -> bool
    requires matrix { IsMatrixOf recorded.now shapes.now }
    requires reader_in { reader < length shapes.now }
    requires writer_in { writer < length shapes.now }
    ensures { IsTrue result ↔ ArePassed shapes.now (recorded_in recorded.now) byte reader writer }
{
    for other in 0..shapes.len() {
        if shapes[other].may_write(byte) && !is_passed(recorded, reader, writer, other) {
            return false;
        }
    }
    true
}

// Whether an access stands before a reader, and after a writer if there is one.
fn is_later(recorded: &Matrix, reader: usize, writer: Option<usize>, other: usize) -> bool
    requires square { IsSquare recorded.now }
    requires reader_in { reader < recorded.now.count }
    requires writer_in { IfSome writer (λ y. y < recorded.now.count) }
    requires other_in { other < recorded.now.count }
    ensures { result ≡ is_later (recorded_in recorded.now) reader writer other }
{
    match writer {
        Some(writer) => recorded.has(other, reader) && recorded.has(writer, other),
        None => recorded.has(other, reader),
    }
}

// Another access, where it may write a byte and is later than a writer before a reader; else that.
fn later(
    recorded: &Matrix,
    shapes: &[AccessShape],
    byte: u32,
    reader: usize,
    writer: Option<usize>,
    other: usize,
) -> Option<usize>
    requires matrix { IsMatrixOf recorded.now shapes.now }
    requires reader_in { reader < length shapes.now }
    requires writer_in { IfSome writer (λ y. y < recorded.now.count) }
    requires other_in { other < length shapes.now }
    ensures { result ≡ later shapes.now (recorded_in recorded.now) byte reader writer other }
{
    if shapes[other].may_write(byte) && is_later(recorded, reader, writer, other) {
        Some(other)
    } else {
        writer
    }
}

// An access that may write a byte and stands before a reader; the one that the reader surely sees, where there is one.
fn newest_before(
    recorded: &Matrix,
    shapes: &[AccessShape],
    byte: u32,
    reader: usize,
) -> Option<usize>
    requires matrix { IsMatrixOf recorded.now shapes.now }
    requires reader_in { reader < length shapes.now }
    ensures candidate { IfSome result (λ y. IsCandidate shapes.now (recorded_in recorded.now) byte reader y) }
    ensures newest { IsStrict (recorded_in recorded.now) → (y : ℕ)
        → IsWrite shapes.now (recorded_in recorded.now) byte reader y → result ≡ Some y }
{
    let mut newest = None;
    for other in 0..shapes.len() {
        newest = later(recorded, shapes, byte, reader, newest, other);
    }
    newest
}

// Whether a reader surely sees the write of an access that stands before it.
fn is_write(
    recorded: &Matrix,
    shapes: &[AccessShape],
    byte: u32,
    reader: usize,
    writer: usize,
) -> bool
    requires matrix { IsMatrixOf recorded.now shapes.now }
    requires reader_in { reader < length shapes.now }
    requires candidate { IsCandidate shapes.now (recorded_in recorded.now) byte reader writer }
    ensures { IsTrue result ↔ IsWrite shapes.now (recorded_in recorded.now) byte reader writer }
{
    shapes[writer].surely_writes(byte) && are_passed(recorded, shapes, byte, reader, writer)
}

/// Where a byte that an access reads comes from. Takes no memory.
pub fn source_of(recorded: &Matrix, shapes: &[AccessShape], byte: u32, reader: usize) -> Source
    requires matrix { IsMatrixOf recorded.now shapes.now }
    requires reader_in { reader < length shapes.now }
    ensures within { IsWithin (length shapes.now) result }
    ensures source { IsStrict (recorded_in recorded.now) → IsSource shapes.now (recorded_in recorded.now) byte reader result }
{
    match newest_before(recorded, shapes, byte, reader) {
        Some(writer) => {
            if is_write(recorded, shapes, byte, reader, writer) {
                Source::Write(writer)
            } else {
                Source::Open
            }
        }
        None => {
            if is_initial(recorded, shapes, byte, reader) {
                Source::Initial
            } else {
                Source::Open
            }
        }
    }
}
