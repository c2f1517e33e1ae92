//! The one source of a byte.
ghost use Rattle.std.specs.Prelude.{◌≡◌, ℕ, ◌<◌, length, Contains, IfNone, IfSome};
ghost use Rattle.formula_parts.specs.Order.{Setting};
ghost use Rattle.race_set.specs.Accesses.{shape_at};
ghost use Rattle.race_set.specs.declared.reading.Seen.{Seen};
ghost use Rattle.read_spots.specs.Sources.{IsFoundAt, IsSeenIn, IsSourceIn};

use odr_log::log::Pos;
use race_set::reading::Seen;
use race_set::shape::AccessShape;

/// Where a byte that an access reads comes from in every run.
#[derive(Clone, Copy, Debug, PartialEq, Eq)]
pub enum Source {
    /// It has no single source, or its address isn't known.
    Open,
    /// No write is seen.
    Initial,
    /// A byte that the access with a number writes.
    Written { access: usize, byte: u32 },
}

// What is told of a byte of the access at a position.
fn find_seen(seen: &[Seen], reader: Pos, byte: u32) -> Option<Seen>
    ensures found { IfSome result (λ s. Contains seen.now s × (s.reader ≡ reader) × (s.byte ≡ byte)) }
    ensures none { IfNone result ((s : Seen) → Contains seen.now s → s.reader ≡ reader → s.byte ≡ byte → ⊥) }
{
    for i in 0..seen.len() {
        if seen[i].reader == reader && seen[i].byte == byte {
            return Some(seen[i]);
        }
    }
    None
}

// The number of the access at a position.
fn find_access(shapes: &[AccessShape], pos: Pos) -> Option<usize>
    ensures found { IfSome result (λ y. (y < length shapes.now) × ((shape_at shapes.now y).pos ≡ pos)) }
    ensures none { IfNone result ((y : ℕ) → y < length shapes.now → (shape_at shapes.now y).pos ≡ pos → ⊥) }
{
    for y in 0..shapes.len() {
        if shapes[y].pos == pos {
            return Some(y);
        }
    }
    None
}

// The byte at an address of the access at a position.
fn written_at(shapes: &[AccessShape], pos: Pos, address: u32) -> Source
    ensures { IsFoundAt shapes.now pos address result }
{
    let Some(access) = find_access(shapes, pos) else {
        return Source::Open;
    };
    match shapes[access].place {
        Some(span) => Source::Written {
            access,
            byte: address.wrapping_sub(span.first),
        },
        None => Source::Open,
    }
}

/// Where a byte of an access comes from in every run, by the readings that have one source.
pub fn source_of(seen: &[Seen], shapes: &[AccessShape], reader: usize, index: u32) -> Source
    requires { reader < length shapes.now }
    ensures { (setting : Setting) → IsSeenIn setting shapes.now seen.now reader index → IsSourceIn setting shapes.now reader index result }
{
    let Some(span) = shapes[reader].place else {
        return Source::Open;
    };
    let address = span.byte(index);
    let Some(found) = find_seen(seen, shapes[reader].pos, address) else {
        return Source::Open;
    };
    match found.from {
        Some(pos) => written_at(shapes, pos, address),
        None => Source::Initial,
    }
}
