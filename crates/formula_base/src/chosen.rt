//! The accesses whose order is asked for.
ghost use Rattle.std.specs.Prelude.{◌≡◌, ◌<◌, length, IfOk, if◌then◌else◌};
ghost use Rattle.std.specs.List.{list_any};
ghost use Rattle.race_set.specs.Accesses.{shape_at};
ghost use Rattle.race_set.specs.Needs.{AreNeeded};
ghost use Rattle.formula_base.specs.Asked.{is_asked, is_step};

use odr_list::list::List;
use odr_list::memory::Memory;
use odr_log::log::Pos;
use race_set::shape::AccessShape;
use std::alloc::Global;

// Whether a step is one of some.
fn is_among(steps: &[Pos], at: Pos) -> bool
    ensures { result ≡ list_any (is_step at) steps.now }
{
    steps
        .iter()
        .any(|step| step.thread == at.thread && step.step == at.step)
}

// The step of an access, where its order is needed or asked for.
fn asked_at(shapes: &[AccessShape], needed: &[Pos], also: &[Pos], number: usize) -> Option<Pos>
    requires number_in { number < length shapes.now }
    ensures { result ≡ (if is_asked shapes.now needed.now also.now number then Some (shape_at shapes.now number).pos else None) }
{
    let at = shapes[number].pos;
    if is_among(needed, at) || is_among(also, at) {
        Some(at)
    } else {
        None
    }
}

/// The steps of those accesses that stand among the first list or the second, in the order of the accesses.
///
/// # Errors
///
/// `Memory` alone.
pub fn chosen_of(
    alloc: Global,
    shapes: &[AccessShape],
    needed: &[Pos],
    also: &[Pos],
) -> Result<List<Pos>, Memory>
    ensures { IfOk result (λ chosen. AreNeeded shapes.now (is_asked shapes.now needed.now also.now) (length shapes.now) chosen) }
{
    let mut chosen = List::new(alloc);
    for number in 0..shapes.len() {
        if let Some(at) = asked_at(shapes, needed, also, number) {
            chosen.push(at)?;
        }
    }
    Ok(chosen)
}
