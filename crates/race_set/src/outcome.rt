//! Store-conditionals whose outcome the recorded order leaves open.
ghost use Rattle.std.specs.Prelude.{◌≡◌, ◌↔◌, ℕ, ◌<◌, true, length, IsTrue, IfOk, IfSome, IfNone, OnOk, Some};
ghost use Rattle.race_set.specs.Accesses.{AreDifferent, shape_at};
ghost use Rattle.race_set.specs.Places.{IsSquare, recorded_in, IsMatrixOf};
ghost use Rattle.race_set.specs.declared.outcome.Outcome.{Outcome};
ghost use Rattle.race_set.specs.Outcomes.{has_part, is_open_at, disturbs, IsDisturbed, IsOpenOutcome, AreOutcomes};

use crate::matrix::Matrix;
use crate::put::put;
use crate::shape::{AccessShape, Span};
use odr_list::list::List;
use odr_list::memory::Memory;
use odr_log::log::Pos;
use std::alloc::Global;

/// A store-conditional and the load-reserved that it looks back to, by their numbers, and the place of that.
#[derive(Clone, Copy, Debug, PartialEq, Eq)]
pub struct Outcome {
    pub conditional: usize,
    pub reserved: usize,
    pub place: Option<Span>,
}

impl Outcome {
    /// Whether an access is one of the two, or may write a byte of the reserved word.
    pub fn has_part(&self, number: usize, shape: &AccessShape) -> bool
        ensures { result ≡ has_part self.now number shape.now }
    {
        self.conditional == number || self.reserved == number || shape.may_write_word(&self.place)
    }
}

// The number of the access at a position.
fn find_access(shapes: &[AccessShape], pos: Pos) -> Option<usize>
    ensures found { IfSome result (λ i. (i < length shapes.now) × ((shape_at shapes.now i).pos ≡ pos)) }
    ensures none { IfNone result ((i : ℕ) → i < length shapes.now → (shape_at shapes.now i).pos ≡ pos → ⊥) }
{
    for i in 0..shapes.len() {
        if shapes[i].pos == pos {
            return Some(i);
        }
    }
    None
}

// Whether two accesses are of different threads and neither is recorded to stand before the other.
fn is_open(recorded: &Matrix, shapes: &[AccessShape], i: usize, j: usize) -> bool
    requires matrix { IsMatrixOf recorded.now shapes.now }
    requires i_in { i < length shapes.now }
    requires j_in { j < length shapes.now }
    ensures { result ≡ is_open_at shapes.now (recorded_in recorded.now) i j }
{
    shapes[i].pos.thread != shapes[j].pos.thread && !recorded.has(i, j) && !recorded.has(j, i)
}

// Whether an access may write a byte of the reserved word, and the recorded order leaves it open with the
// store-conditional or with the load-reserved.
fn disturbs(recorded: &Matrix, shapes: &[AccessShape], outcome: Outcome, other: usize) -> bool
    requires matrix { IsMatrixOf recorded.now shapes.now }
    requires conditional_in { outcome.conditional < length shapes.now }
    requires reserved_in { outcome.reserved < length shapes.now }
    requires other_in { other < length shapes.now }
    ensures { result ≡ disturbs shapes.now (recorded_in recorded.now) outcome other }
{
    shapes[other].may_write_word(&outcome.place)
        && (is_open(recorded, shapes, other, outcome.conditional)
            || is_open(recorded, shapes, other, outcome.reserved))
}

// Whether the recorded order leaves the outcome of a store-conditional open.
fn is_disturbed(recorded: &Matrix, shapes: &[AccessShape], outcome: Outcome) -> bool
    requires matrix { IsMatrixOf recorded.now shapes.now }
    requires conditional_in { outcome.conditional < length shapes.now }
    requires reserved_in { outcome.reserved < length shapes.now }
    ensures { IsTrue result ↔ IsDisturbed shapes.now (recorded_in recorded.now) outcome }
{
    for other in 0..shapes.len() {
        if disturbs(recorded, shapes, outcome, other) {
            return true;
        }
    }
    false
}

// A store-conditional with its load-reserved, where its outcome is open.
fn open_outcome(recorded: &Matrix, shapes: &[AccessShape], conditional: usize) -> Option<Outcome>
    requires matrix { IsMatrixOf recorded.now shapes.now }
    requires conditional_in { conditional < length shapes.now }
    ensures some { IfSome result (λ o. (o.conditional ≡ conditional) × IsOpenOutcome shapes.now (recorded_in recorded.now) o) }
    ensures none { IfNone result (AreDifferent shapes.now → (o : Outcome) → o.conditional ≡ conditional
        → IsOpenOutcome shapes.now (recorded_in recorded.now) o → ⊥) }
{
    let Some(link) = shapes[conditional].link else {
        return None;
    };
    let Some(reserved) = find_access(shapes, link) else {
        return None;
    };
    let outcome = Outcome {
        conditional,
        reserved,
        place: shapes[reserved].place,
    };
    if is_disturbed(recorded, shapes, outcome) {
        Some(outcome)
    } else {
        None
    }
}

/// The store-conditionals whose outcome the recorded order leaves open.
///
/// # Errors
///
/// `Memory` alone.
pub fn open_outcomes(
    alloc: Global,
    recorded: &Matrix,
    shapes: &[AccessShape],
) -> Result<List<Outcome>, Memory>
    requires matrix { IsMatrixOf recorded.now shapes.now }
    ensures { IfOk result (λ outcomes. AreOutcomes shapes.now (recorded_in recorded.now) (length shapes.now) outcomes) }
{
    let mut outcomes = List::new(alloc);
    for conditional in 0..shapes.len() {
        put(open_outcome(recorded, shapes, conditional), &mut outcomes)?;
    }
    Ok(outcomes)
}
