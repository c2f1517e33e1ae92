//! The walk along a list of steps.

ghost use Rattle.std.specs.Prelude.{◌≡◌, [], All, IfOk, IfSome, IfNone, IsTrue, ◌↔◌};
ghost use Rattle.rv_model.specs.Noted.{note_in};
ghost use Rattle.guided_walk.specs.Told.{noted};
ghost use Rattle.guided_walk.specs.Guided.{at};
ghost use Rattle.guided_walk.specs.Along.{walk_along};
ghost use Rattle.plain_walk.specs.Data.{given_of, visits_of};
ghost use Rattle.walk_lists.specs.Data.{told_of};
ghost use Rattle.plain_walk.specs.Tables.{visits_in};
ghost use Rattle.plain_walk.specs.Begun.{CanBegin};

use crate::given::Supplied;
use crate::table::Table;
use crate::told::{notes_of, shows};
use crate::visit::visit;
use elf_image::image::Image;
use odr_list::list::List;
use odr_list::memory::Memory;
use odr_log::log::{CallRec, Pos};
use rv_model::state::Note;
use std::alloc::Global;

/// The guided walk along a list of steps: each is worked out from the visits of those before it. None where some step is
/// the first of a thread that no spawn made, or is recorded to have read more bytes than a word can count.
pub fn walk_along(
    alloc: Global,
    image: &Image,
    calls: &[CallRec],
    notes: &[List<Note>],
    rows: &[List<Supplied>],
    steps: &[Pos],
) -> Result<Option<Table>, Memory>
    ensures some { IfOk result (λ found. IfSome found (λ table. visits_in table ≡ walk_along image.now (told_of notes.now calls.now) (given_of rows.now) steps.now (visits_of table.nothing []))) }
    ensures none { IfOk result (λ found. IfNone found (All (CanBegin (told_of notes.now calls.now)) steps.now → ⊥)) }
{
    let mut table = Table::new(alloc);
    for step in steps {
        let Some(visited) = visit(alloc, image, calls, notes, rows, &table, *step)? else {
            return Ok(None);
        };
        table.push(visited)?;
    }
    Ok(Some(table))
}

fn is_shown(calls: &[CallRec], notes: &[List<Note>], table: &Table, step: Pos) -> bool
    ensures { IsTrue result ↔ (note_in (at (visits_in table.now) step).outcome ≡ noted (told_of notes.now calls.now) step) }
{
    shows(
        &table.at(step).outcome,
        notes_of(notes, step.thread),
        step.step,
    )
}

/// Whether each of these steps shows what is recorded of it.
pub fn holds_at(calls: &[CallRec], notes: &[List<Note>], table: &Table, steps: &[Pos]) -> bool
    ensures { IsTrue result ↔ All (λ step. note_in (at (visits_in table.now) step).outcome ≡ noted (told_of notes.now calls.now) step) steps.now }
{
    steps
        .iter()
        .all(|step| is_shown(calls, notes, table, *step))
}
