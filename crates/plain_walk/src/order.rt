//! Whether a list of steps has each step of a log after what it is made of.

ghost use Rattle.std.specs.Prelude.{◌≡◌, ◌<◌, ◌↔◌, ◌^◌, ℕ, All, length, nat_eq, ◌&&◌, slice_index_or, take, [], IsTrue};
ghost use Rattle.std.specs.List.{list_any};
ghost use Rattle.guided_walk.specs.Orders.{In};
ghost use Rattle.guided_walk.specs.Flow.{NeedsThread, NeedsJoin, Needs};
ghost use Rattle.guided_walk.specs.Told.{noted};
ghost use Rattle.guided_walk.specs.Guided.{joins};
ghost use Rattle.walk_lists.specs.Data.{told_of, noted_in};
ghost use Rattle.odr_log.specs.declared.log.Pos.{Pos};
ghost use Rattle.plain_walk.specs.Order.{HasRow, IsCounted};
ghost use Rattle.walk_lists.specs.Order.{Follows, IsOrder, HasEach};

use crate::told::{ender_of, joined_by, maker_of, notes_of};
use odr_list::list::List;
use odr_log::log::{CallRec, Pos};
use rv_model::state::Note;

fn any_is(steps: &[Pos], step: Pos) -> bool
    ensures { result ≡ list_any (λ other. nat_eq other.thread step.thread && nat_eq other.step step.step) steps.now }
{
    steps.iter().any(|other| other.thread == step.thread && other.step == step.step)
}

/// Whether a list has a step.
fn contains(steps: &[Pos], step: Pos) -> bool
    ensures { IsTrue result ↔ In step steps.now }
{
    any_is(steps, step)
}

/// Whether the steps done have what a thread is made of before a step.
#[tactic(auto, using(crate::proofs::OrderLemmas::threads))]
fn has_thread(calls: &[CallRec], notes: &[List<Note>], done: &[Pos], at: Pos) -> bool
    ensures { IsTrue result ↔ ((q : Pos) → NeedsThread (told_of notes.now calls.now) q at.thread at.step → In q done.now) }
{
    if at.step > 0 {
        let before = Pos {
            thread: at.thread,
            step: at.step - 1,
        };
        return contains(done, before);
    }
    if at.thread == 0 {
        return true;
    }
    match maker_of(calls, at.thread) {
        None => true,
        Some(spawn) => contains(done, spawn),
    }
}

/// Whether the steps done have the end of the thread that a step joins.
#[tactic(auto, using(crate::proofs::OrderLemmas::joins))]
fn has_end(calls: &[CallRec], notes: &[List<Note>], done: &[Pos], at: Pos) -> bool
    ensures { IsTrue result ↔ ((q : Pos) → NeedsJoin (told_of notes.now calls.now) q (joins (noted (told_of notes.now calls.now) at)) → In q done.now) }
{
    match joined_by(notes_of(notes, at.thread), at.step) {
        None => true,
        Some(target) => match ender_of(calls, target) {
            None => true,
            Some(end) => contains(done, end),
        },
    }
}

/// Whether the steps done have what a step is made of.
fn has_needs(calls: &[CallRec], notes: &[List<Note>], done: &[Pos], at: Pos) -> bool
    ensures { IsTrue result ↔ ((q : Pos) → Needs (told_of notes.now calls.now) q at → In q done.now) }
{
    has_thread(calls, notes, done, at) && has_end(calls, notes, done, at)
}

fn is_place(notes: &[List<Note>], at: Pos) -> bool
    ensures { IsTrue result ↔ (at.step < length (slice_index_or notes.now at.thread [])) }
{
    (at.step as usize) < notes_of(notes, at.thread).len()
}

/// Whether a step can stand after those done: it is a step of the log, is not done, and what it is made of is.
fn follows(calls: &[CallRec], notes: &[List<Note>], done: &[Pos], at: Pos) -> bool
    ensures { IsTrue result ↔ Follows (told_of notes.now calls.now) done.now at }
{
    if !is_place(notes, at) {
        return false;
    }
    if contains(done, at) {
        return false;
    }
    has_needs(calls, notes, done, at)
}

/// Whether each step of a list can stand where it does.
#[tactic(auto, using(crate::proofs::OrderLemmas::lists))]
fn is_order(calls: &[CallRec], notes: &[List<Note>], steps: &[Pos]) -> bool
    ensures { IsTrue result ↔ IsOrder (told_of notes.now calls.now) [] steps.now }
{
    for i in 0..steps.len() {
        if !follows(calls, notes, &steps[..i], steps[i]) {
            return false;
        }
    }
    true
}

/// Whether a list has the first steps of a thread.
#[tactic(auto, using(crate::proofs::OrderLemmas::rows))]
fn has_row(steps: &[Pos], thread: u8, count: u32) -> bool
    ensures { IsTrue result ↔ HasRow steps.now thread count }
{
    for step in 0..count {
        if !contains(steps, Pos { thread, step }) {
            return false;
        }
    }
    true
}

/// Whether a list has all steps of a thread.
fn has_steps_of(notes: &[List<Note>], steps: &[Pos], thread: u8) -> bool
    ensures has { IsTrue result → HasRow steps.now thread (length (slice_index_or notes.now thread [])) }
    ensures misses { length (slice_index_or notes.now thread []) < 2 ^ 32
        → HasRow steps.now thread (length (slice_index_or notes.now thread [])) → IsTrue result }
{
    let count = notes_of(notes, thread).len();
    count <= u32::MAX as usize && has_row(steps, thread, count as u32)
}

/// Whether a list has all steps of a log of at most 256 threads.
fn has_all(notes: &[List<Note>], steps: &[Pos]) -> bool
    ensures has { IsTrue result → (p : Pos) → p.step < length (slice_index_or notes.now p.thread []) → In p steps.now }
    ensures misses { IsCounted notes.now
        → ((p : Pos) → p.step < length (slice_index_or notes.now p.thread []) → In p steps.now) → IsTrue result }
{
    if notes.len() > 256 {
        return false;
    }
    for thread in 0..notes.len() {
        if !has_steps_of(notes, steps, thread as u8) {
            return false;
        }
    }
    true
}

/// Whether a list has each step of a log once, after what it is made of. It answers false also for a log of more than 256
/// threads, and for one with a thread of 2 ^ 32 steps or more.
pub fn is_whole_order(calls: &[CallRec], notes: &[List<Note>], steps: &[Pos]) -> bool
    ensures order { IsTrue result → IsOrder (told_of notes.now calls.now) [] steps.now }
    ensures all { IsTrue result → HasEach (told_of notes.now calls.now) steps.now }
    ensures misses { IsCounted notes.now → IsOrder (told_of notes.now calls.now) [] steps.now
        → HasEach (told_of notes.now calls.now) steps.now → IsTrue result }
{
    is_order(calls, notes, steps) && has_all(notes, steps)
}
