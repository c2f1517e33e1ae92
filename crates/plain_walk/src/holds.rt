//! Whether a guided walk holds.

ghost use Rattle.std.specs.Prelude.{◌≡◌, ◌↔◌, [], All, IfOk, IfSome, IfNone, IsTrue};
ghost use Rattle.guided_walk.specs.Guided.{Guided};
ghost use Rattle.plain_walk.specs.Begun.{CanBegin};
ghost use Rattle.plain_walk.specs.Data.{given_of};
ghost use Rattle.walk_lists.specs.Data.{told_of};
ghost use Rattle.plain_walk.specs.Order.{IsCounted};
ghost use Rattle.walk_lists.specs.Order.{IsOrder, HasEach};

use crate::given::Supplied;
use crate::order::is_whole_order;
use crate::walk::{holds_at, walk_along};
use elf_image::image::Image;
use odr_list::list::List;
use odr_list::memory::Memory;
use odr_log::log::{CallRec, Pos};
use rv_model::state::Note;
use std::alloc::Global;

/// Whether a guided walk holds, by the walk along a list of all steps in which each stands after what it is made of. None
/// only where the list isn't one, where a step's thread has no beginning or its reply more bytes than a word counts, or
/// where the notes are of more threads or steps than their numbers count.
pub fn is_guided(
    alloc: Global,
    image: &Image,
    calls: &[CallRec],
    notes: &[List<Note>],
    rows: &[List<Supplied>],
    steps: &[Pos],
) -> Result<Option<bool>, Memory>
    ensures some { IfOk result (λ found. IfSome found (λ holds. IsTrue holds
        ↔ Guided image.now (told_of notes.now calls.now) (given_of rows.now))) }
    ensures none { IfOk result (λ found. IfNone found (IsCounted notes.now
        → IsOrder (told_of notes.now calls.now) [] steps.now → HasEach (told_of notes.now calls.now) steps.now
        → All (CanBegin (told_of notes.now calls.now)) steps.now → ⊥)) }
{
    if !is_whole_order(calls, notes, steps) {
        return Ok(None);
    }
    let Some(table) = walk_along(alloc, image, calls, notes, rows, steps)? else {
        return Ok(None);
    };
    Ok(Some(holds_at(calls, notes, &table, steps)))
}
