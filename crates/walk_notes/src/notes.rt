//! The notes of all steps of a log.

ghost use Rattle.std.specs.Prelude.{◌≡◌, ◌≤◌, ◌<◌, ◌++◌, [], length, slice_index_or, IfOk, OnOk};
ghost use Rattle.rv_model.specs.Run.{logged};
ghost use Rattle.rv_model.specs.Walk.{Walk, IsWalk, notes_of};
ghost use Rattle.trace_path.specs.Traced.{IsTraced};
ghost use Rattle.guided_walk.specs.Told.{told, last_fault, shown_by};
ghost use Rattle.walk_lists.specs.Data.{told_of};
ghost use Rattle.walk_notes.specs.Telling.{IsTransfer};

use crate::note::{calls_from, items_in, note_at};
use elf_image::image::Image;
use odr_list::list::List;
use odr_list::memory::Memory;
use odr_log::log::{End, Log, Pos};
use rv_model::logged::{path_logged, steps_logged};
use rv_model::state::Note;
use rv_model::walk::{Transfer, transfer_of};
use std::alloc::Global;
use trace_path::Traces;

/// How control goes on after a counted step.
fn transfer_at(image: &Image, log: &Log, traces: &Traces, at: Pos) -> Transfer
    requires traced { IsTraced image.now log.now traces.now }
    requires counted { at.step < (logged log.now at.thread).steps }
    ensures { IsTransfer traces.now at.thread at.step result }
{
    let (pc, instr) = traces.instr(at);
    transfer_of(pc, &instr)
}

/// Appends the fault of a thread, where the log ends in one.
fn push_fault(notes: &mut List<Note>, end: &End, thread: u8) -> Result<(), Memory>
    ensures { OnOk result (notes.new ≡ notes.old ++ last_fault end.now thread) }
{
    match end {
        End::Faulted { tid, cause } if *tid == thread => notes.push(Note::Faulted(*cause)),
        _ => Ok(()),
    }
}

/// The notes of a thread's counted steps.
fn counted_notes(
    alloc: Global,
    image: &Image,
    log: &Log,
    traces: &Traces,
    thread: u8,
) -> Result<List<Note>, Memory>
    requires { IsTraced image.now log.now traces.now }
    ensures { IfOk result (λ notes. (walk : Walk) → IsWalk image.now log.now walk → notes ≡ notes_of walk thread) }
{
    let mut notes = List::new(alloc);
    let path = path_logged(log, thread as usize);
    let mut items = 0usize;
    let mut calls = log.calls.as_slice();
    for step in 0..steps_logged(log, thread as usize) {
        let at = Pos { thread, step };
        let transfer = transfer_at(image, log, traces, at);
        calls = calls_from(calls, at);
        let note = note_at(alloc, path, items, calls, at, &transfer)?;
        items += items_in(&note);
        notes.push(note)?;
    }
    Ok(notes)
}

/// The notes of a thread's steps, with its fault last.
fn notes_of_thread(
    alloc: Global,
    image: &Image,
    log: &Log,
    traces: &Traces,
    thread: u8,
) -> Result<List<Note>, Memory>
    requires { IsTraced image.now log.now traces.now }
    ensures { IfOk result (λ notes. (walk : Walk) → IsWalk image.now log.now walk → notes ≡ shown_by log.now walk thread) }
{
    let mut notes = counted_notes(alloc, image, log, traces, thread)?;
    push_fault(&mut notes, &log.end, thread)?;
    Ok(notes)
}

/// The notes of each thread's steps, with its fault last: what the log tells by its walk.
pub fn notes_of_log(
    alloc: Global,
    image: &Image,
    log: &Log,
    traces: &Traces,
) -> Result<List<List<Note>>, Memory>
    requires traced { IsTraced image.now log.now traces.now }
    requires threads { length log.now.threads ≤ 256 }
    ensures { IfOk result (λ notes. (walk : Walk) → IsWalk image.now log.now walk → told_of notes log.now.calls ≡ told log.now walk) }
{
    let mut all = List::new(alloc);
    for thread in 0..log.threads.len() {
        all.push(notes_of_thread(alloc, image, log, traces, thread as u8)?)?;
    }
    Ok(all)
}
