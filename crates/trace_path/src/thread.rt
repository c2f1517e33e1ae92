//! The walk of one thread.

ghost use Rattle.std.specs.Prelude.{◌≡◌, ◌<◌, ◌^◌, ℕ, List, length, IfOk, IfSome, IfNone, IsTrue};
ghost use Rattle.std.specs.List.{find};
ghost use Rattle.rv_model.specs.declared.state.Note.{Note};
ghost use Rattle.rv_model.specs.Run.{logged};
ghost use Rattle.rv_model.specs.Walk.{BeginsAt, ThreadWalk, makes};
ghost use Rattle.trace_path.specs.Steps.{Stand, Walked};
ghost use Rattle.trace_path.specs.Followed.{IsFront, IsFollowed, begin};
ghost use Rattle.trace_path.specs.Starts.{entry_of, entry_in};

use crate::cursor::{Cursor, is_used_up};
use crate::step::{advance, is_access};
use elf_image::image::Image;
use odr_list::list::List;
use odr_list::memory::Memory;
use odr_log::log::{Call, CallRec, Log};
use rv_model::logged::steps_logged;
use rv_model::walk::Place;
use std::alloc::Global;

/// Where a thread's walk stops: the address after its last step, and whether that was an exit or its end.
#[derive(Clone, Copy)]
pub struct Stop {
    pub pc: u32,
    pub over: bool,
}

/// A thread's walk: its places, the number of accesses among them, and where it stops.
#[derive(Drop)]
pub struct Followed {
    pub places: List<Place>,
    pub accesses: u64,
    pub stop: Stop,
}

/// The first steps of a thread.
#[derive(Drop)]
struct Front {
    places: List<Place>,
    accesses: u64,
    cursor: Cursor,
}

/// Whether a call is a spawn that made a thread.
fn makes(thread: usize, call: &Call) -> bool
    ensures value { result ≡ makes thread call.now }
    ensures number { IsTrue result → thread < 2 ^ 8 }
{
    match call {
        Call::Spawn {
            child: Some(child),
            ..
        } => usize::from(*child) == thread,
        _ => false,
    }
}

/// The entry of a spawn.
fn entry_of(call: &Call) -> Option<u32>
    ensures { result ≡ entry_of call.now }
{
    match call {
        Call::Spawn { entry, .. } => Some(*entry),
        _ => None,
    }
}

/// The entry of the first spawn that made a thread.
fn spawned_at(calls: &[CallRec], thread: usize) -> Option<u32>
    ensures value { result ≡ entry_in (find (λ r. makes thread r.call) calls.now) }
    ensures number { IfSome result (λ _. thread < 2 ^ 8) }
{
    for r in calls {
        if makes(thread, &r.call) {
            return entry_of(&r.call);
        }
    }
    None
}

/// Where a thread begins: thread 0 at the image's entry, every other one at the entry of the first spawn that made it.
fn start_of(image: &Image, log: &Log, thread: usize) -> Option<u32>
    ensures some { IfSome result (BeginsAt image.now log.now thread) }
    ensures none { IfNone result ((start : ℕ) → BeginsAt image.now log.now thread start → ⊥) }
    ensures number { IfSome result (λ _. thread < 2 ^ 8) }
{
    if thread == 0 {
        Some(image.entry())
    } else {
        spawned_at(log.calls.as_slice(), thread)
    }
}

/// Follows a thread for all its steps, none where the log fits no step on the way.
fn follow(
    alloc: Global,
    image: &Image,
    log: &Log,
    thread: usize,
    start: u32,
) -> Result<Option<Front>, Memory>
    ensures some { IfOk result (λ found. IfSome found (λ front. IsFront image.now log.now thread start (logged log.now thread).steps front.places front.accesses front.cursor)) }
    ensures few { IfOk result (λ found. IfSome found (λ front. front.accesses < 2 ^ 32)) }
    ensures none { IfOk result (λ found. IfNone found ((places : List Place) (notes : List Note) (to : Stand) → length places ≡ (logged log.now thread).steps → Walked image.now (begin log.now thread start) places notes to → ⊥)) }
{
    let mut places = List::new(alloc);
    let mut accesses = 0u64;
    let mut cursor = Cursor {
        pc: start,
        over: false,
        items: 0,
        calls: 0,
    };
    for step in 0..steps_logged(log, thread) {
        let Some(next) = advance(image, log, thread, step, &cursor) else {
            return Ok(None);
        };
        accesses += u64::from(is_access(&next.place.instr, &next.shown));
        places.push(next.place)?;
        cursor = next.cursor;
    }
    Ok(Some(Front {
        places,
        accesses,
        cursor,
    }))
}

/// The walk of a thread, none where the log's path and calls of it fit none.
pub fn walk_thread(
    alloc: Global,
    image: &Image,
    log: &Log,
    thread: usize,
) -> Result<Option<Followed>, Memory>
    ensures some { IfOk result (λ found. IfSome found (IsFollowed image.now log.now thread)) }
    ensures none { IfOk result (λ found. IfNone found ((places : List Place) (notes : List Note) → ThreadWalk image.now log.now thread places notes → ⊥)) }
{
    let Some(start) = start_of(image, log, thread) else {
        return Ok(None);
    };
    let Some(front) = follow(alloc, image, log, thread, start)? else {
        return Ok(None);
    };
    if !is_used_up(log, thread, &front.cursor) {
        return Ok(None);
    }
    let Front {
        places,
        accesses,
        cursor,
    } = front;
    Ok(Some(Followed {
        places,
        accesses,
        stop: Stop {
            pc: cursor.pc,
            over: cursor.over,
        },
    }))
}
