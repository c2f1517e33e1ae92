//! The note of one step.

ghost use Rattle.std.specs.Prelude.{◌≡◌, ◌&&◌, length, nat_eq, nat_le, slice_get, is_some, ◌<◌, ◌≤◌, IfOk, IfSome, if◌then◌else◌};
ghost use Rattle.std.specs.List.{find, position};
ghost use Rattle.std.specs.Option.{option_copied};
ghost use Rattle.rv_model.specs.Run.{item_of};
ghost use Rattle.walk_notes.specs.Telling.{branch_note, jump_note, call_note, is_record, note_by, AreAhead};

use odr_list::bytes::Bytes;
use odr_list::memory::Memory;
use odr_log::log::{Call, CallRec, PathItem, Pos};
use rv_model::state::Note;
use rv_model::walk::Transfer;
use std::alloc::Global;

fn branch_note(path: &[PathItem], items: usize) -> Note
    ensures { result ≡ branch_note (slice_get path.now items) }
{
    match path.get(items) {
        Some(PathItem::Branch(taken)) => Note::Branch(*taken),
        _ => Note::Nothing,
    }
}

fn jump_note(path: &[PathItem], items: usize) -> Note
    ensures { result ≡ jump_note (slice_get path.now items) }
{
    match path.get(items) {
        Some(PathItem::Jump(target)) => Note::Jump(*target),
        _ => Note::Nothing,
    }
}

/// The place of the first record of this step or of a later one of its thread.
fn place_from(calls: &[CallRec], at: Pos) -> Option<usize>
    ensures value { result ≡ position (λ r. nat_eq r.tid at.thread && nat_le at.step r.at) calls.now }
    ensures within { IfSome result (λ place. place < length calls.now) }
{
    calls
        .iter()
        .position(|r| r.tid == at.thread && at.step <= r.at)
}

/// The records from the first of this step or of a later one of its thread on.
pub fn calls_from(calls: &[CallRec], at: Pos) -> &[CallRec]
    ensures { AreAhead calls.now at.thread at.step result.now }
{
    match place_from(calls, at) {
        None => &[],
        Some(place) => &calls[place..],
    }
}

/// The record of a call of a step.
fn record_at(calls: &[CallRec], at: Pos) -> Option<&CallRec>
    ensures { option_copied result ≡ find (is_record at.thread at.step) calls.now }
{
    calls.iter().find(|r| r.tid == at.thread && r.at == at.step)
}

fn copy_of(alloc: Global, call: &Call) -> Result<Call, Memory>
    ensures { IfOk result (λ copy. copy ≡ call.now) }
{
    Ok(match call {
        Call::Exit { code } => Call::Exit { code: *code },
        Call::EndThread => Call::EndThread,
        Call::Spawn { entry, child } => Call::Spawn {
            entry: *entry,
            child: *child,
        },
        Call::Join { target, ok } => Call::Join {
            target: *target,
            ok: *ok,
        },
        Call::Lock { mutex, ok } => Call::Lock {
            mutex: *mutex,
            ok: *ok,
        },
        Call::Unlock { mutex, ok } => Call::Unlock {
            mutex: *mutex,
            ok: *ok,
        },
        Call::TryLock { mutex, got } => Call::TryLock {
            mutex: *mutex,
            got: *got,
        },
        Call::Write { bytes } => Call::Write {
            bytes: Bytes::from_slice(alloc, bytes.as_slice())?,
        },
        Call::WriteBad => Call::WriteBad,
        Call::Read { want, bytes } => Call::Read {
            want: *want,
            bytes: Bytes::from_slice(alloc, bytes.as_slice())?,
        },
        Call::ReadBad => Call::ReadBad,
        Call::SelfId => Call::SelfId,
        Call::Yield => Call::Yield,
        Call::Unknown { number } => Call::Unknown { number: *number },
    })
}

fn call_note(alloc: Global, found: Option<&CallRec>) -> Result<Note, Memory>
    ensures { IfOk result (λ shown. shown ≡ call_note (option_copied found.entry)) }
{
    match found {
        None => Ok(Note::Nothing),
        Some(r) => Ok(Note::Called(copy_of(alloc, &r.call)?)),
    }
}

/// The note of a step after which control so goes on, where so many items of its thread's path are behind it.
pub fn note_at(
    alloc: Global,
    path: &[PathItem],
    items: usize,
    calls: &[CallRec],
    at: Pos,
    transfer: &Transfer,
) -> Result<Note, Memory>
    ensures { IfOk result (λ shown. shown ≡ note_by (slice_get path.now items) (find (is_record at.thread at.step) calls.now) transfer.now) }
{
    match transfer {
        Transfer::Branch { .. } => Ok(branch_note(path, items)),
        Transfer::Indirect => Ok(jump_note(path, items)),
        Transfer::Call => call_note(alloc, record_at(calls, at)),
        _ => Ok(Note::Nothing),
    }
}

/// The number of items that a step with this note has in its thread's path.
pub fn items_in(note: &Note) -> usize
    ensures value { result ≡ (if is_some (item_of note.now) then 1 else 0) }
    ensures one { result ≤ 1 }
{
    match note {
        Note::Branch(_) | Note::Jump(_) => 1,
        _ => 0,
    }
}
