//! What a log tells of a step: its note, which spawn made its thread, which call ended a thread.

ghost use Rattle.std.specs.Prelude.{◌≡◌, ◌<◌, ◌^◌, ℕ, [], length, option_map, slice_index_or, IfOk, IfSome, IfNone, IsTrue, ◌↔◌};
ghost use Rattle.std.specs.List.{find};
ghost use Rattle.rv_model.specs.Calls.{says};
ghost use Rattle.rv_model.specs.CallsFit.{reply_in};
ghost use Rattle.rv_model.specs.Noted.{note_in, reply_noted};
ghost use Rattle.rv_model.specs.Step.{child_of};
ghost use Rattle.rv_model.specs.Thread.{no_thread};
ghost use Rattle.rv_model.specs.Walk.{makes};
ghost use Rattle.guided_walk.specs.Told.{ends, place_of};
ghost use Rattle.guided_walk.specs.Guided.{joins};
ghost use Rattle.walk_lists.specs.Data.{noted_in};
ghost use Rattle.plain_walk.specs.Begun.{HandsOn};

use odr_list::bytes::Bytes;
use odr_list::list::List;
use odr_list::memory::Memory;
use odr_log::log::{Call, CallRec, Pos};
use rv_model::hearing::{Outcome, Reply};
use rv_model::state::{Local, Note};
use std::alloc::Global;

/// The notes of a thread, none of one that is not told of.
pub fn notes_of(notes: &[List<Note>], thread: u8) -> &[Note]
    ensures { result.now ≡ slice_index_or notes.now thread [] }
{
    match notes.get(thread as usize) {
        None => &[],
        Some(row) => row.as_slice(),
    }
}

fn makes(thread: u8, call: &Call) -> bool
    ensures { result ≡ makes thread call.now }
{
    match call {
        Call::Spawn {
            child: Some(child),
            ..
        } => *child == thread,
        _ => false,
    }
}

/// The spawn that made a thread, by the first that is recorded.
pub fn maker_of(calls: &[CallRec], thread: u8) -> Option<Pos>
    ensures { result ≡ option_map place_of (find (λ r. makes thread r.call) calls.now) }
{
    calls.iter().find(|r| makes(thread, &r.call)).map(|r| Pos {
        thread: r.tid,
        step: r.at,
    })
}

fn ends(thread: u32, r: &CallRec) -> bool
    ensures { result ≡ ends thread r.now }
{
    match r.call {
        Call::EndThread => u32::from(r.tid) == thread,
        _ => false,
    }
}

/// The call by which a thread ended, by the first that is recorded.
pub fn ender_of(calls: &[CallRec], thread: u32) -> Option<Pos>
    ensures { result ≡ option_map place_of (find (ends thread) calls.now) }
{
    calls.iter().find(|r| ends(thread, r)).map(|r| Pos {
        thread: r.tid,
        step: r.at,
    })
}

fn joins(note: &Note) -> Option<u32>
    ensures { result ≡ joins note.now }
{
    match note {
        Note::Called(Call::Join { target, ok: true }) => Some(*target),
        _ => None,
    }
}

/// The thread that a step of a thread with these notes was answered to have joined.
pub fn joined_by(notes: &[Note], step: u32) -> Option<u32>
    ensures { result ≡ joins (noted_in notes.now step) }
{
    match notes.get(step as usize) {
        None => None,
        Some(note) => joins(note),
    }
}

fn child_of(local: &Local, note: &Note) -> Option<Local>
    ensures some { IfSome result (λ child. child ≡ (slice_index_or (child_of local.now note.now) 0 no_thread).local) }
    ensures none { IfNone result (HandsOn note.now → ⊥) }
{
    match note {
        Note::Called(
            Call::Spawn {
                entry,
                child: Some(child),
            },
        ) => Some(Local::spawned(*child, *entry, local.register(3), local.register(11))),
        _ => None,
    }
}

/// What a step of a thread with these notes hands on to the thread that it makes, none where it is no spawn with a child.
pub fn handed_by(notes: &[Note], step: u32, local: &Local) -> Option<Local>
    ensures some { IfSome result (λ child. child ≡ (slice_index_or (child_of local.now (noted_in notes.now step)) 0 no_thread).local) }
    ensures none { IfNone result (HandsOn (noted_in notes.now step) → ⊥) }
{
    match notes.get(step as usize) {
        None => None,
        Some(note) => child_of(local, note),
    }
}

fn says(alloc: Global, ok: bool) -> Reply
    ensures { result ≡ says ok }
{
    Reply {
        ok,
        child: None,
        bytes: Bytes::new(alloc),
    }
}

fn reply_in(alloc: Global, call: &Call) -> Result<Reply, Memory>
    ensures { IfOk result (λ reply. reply ≡ reply_in call.now) }
{
    match call {
        Call::Spawn { child, .. } => Ok(Reply {
            ok: false,
            child: *child,
            bytes: Bytes::new(alloc),
        }),
        Call::Join { ok, .. } | Call::Lock { ok, .. } | Call::Unlock { ok, .. } => {
            Ok(says(alloc, *ok))
        }
        Call::TryLock { got, .. } => Ok(says(alloc, *got)),
        Call::Read { bytes, .. } => Ok(Reply {
            ok: false,
            child: None,
            bytes: Bytes::from_slice(alloc, bytes.as_slice())?,
        }),
        _ => Ok(says(alloc, false)),
    }
}

fn reply_noted(alloc: Global, note: &Note) -> Result<Reply, Memory>
    ensures { IfOk result (λ reply. reply ≡ reply_noted note.now) }
{
    match note {
        Note::Called(call) => reply_in(alloc, call),
        _ => Ok(says(alloc, false)),
    }
}

/// The reply that is recorded of a step of a thread with these notes.
pub fn reply_at(alloc: Global, notes: &[Note], step: u32) -> Result<Reply, Memory>
    ensures { IfOk result (λ reply. reply ≡ reply_noted (noted_in notes.now step)) }
{
    match notes.get(step as usize) {
        None => Ok(says(alloc, false)),
        Some(note) => reply_noted(alloc, note),
    }
}

fn is_same(outcome: &Outcome, note: &Note) -> bool
    ensures { IsTrue result ↔ (note_in outcome.now ≡ note.now) }
{
    match (outcome, note) {
        (Outcome::Faults(cause), Note::Faulted(recorded)) => cause == recorded,
        (Outcome::Goes { note: shown, .. }, _) => is_same_note(shown, note),
        _ => false,
    }
}

fn is_same_note(one: &Note, other: &Note) -> bool
    ensures { IsTrue result ↔ (one.now ≡ other.now) }
{
    match (one, other) {
        (Note::Nothing, Note::Nothing) => true,
        (Note::Branch(taken), Note::Branch(recorded)) => taken == recorded,
        (Note::Jump(target), Note::Jump(recorded)) => target == recorded,
        (Note::Called(call), Note::Called(recorded)) => call.same(recorded),
        (Note::Faulted(cause), Note::Faulted(recorded)) => cause == recorded,
        _ => false,
    }
}

/// Whether an outcome shows what is recorded of a step of a thread with these notes.
pub fn shows(outcome: &Outcome, notes: &[Note], step: u32) -> bool
    ensures { IsTrue result ↔ (note_in outcome.now ≡ noted_in notes.now step) }
{
    match notes.get(step as usize) {
        None => is_same(outcome, &Note::Nothing),
        Some(note) => is_same(outcome, note),
    }
}
