//! A thread before a step, by the visits so far.

ghost use Rattle.std.specs.Prelude.{◌≡◌, ◌<◌, ◌+◌, length, IfSome, IfNone};
ghost use Rattle.guided_walk.specs.Guided.{went, begins, handed, seen_before, joined_from, ended_with, joins, at};
ghost use Rattle.rv_model.specs.Instruction.{reserving_at};
ghost use Rattle.rv_model.specs.Step.{instr_at};
ghost use Rattle.plain_walk.specs.Data.{seen_of, visit_of};
ghost use Rattle.walk_lists.specs.Data.{told_of, noted_in};
ghost use Rattle.plain_walk.specs.Tables.{visits_in};
ghost use Rattle.plain_walk.specs.Begun.{Begun, HandsOn};

use crate::table::{Before, Table, Visited};
use crate::told::{ender_of, handed_by, joined_by, maker_of, notes_of};
use elf_image::image::Image;
use odr_list::list::List;
use odr_log::log::{CallRec, Pos};
use plain_machine::act::reserving;
use rv_model::code::instr_at;
use rv_model::hearing::Outcome;
use rv_model::state::{Local, Note};

/// The reservation that an instruction leaves.
pub fn reserving_at(image: &Image, local: &Local, reservation: Option<u32>) -> Option<u32>
    ensures { result ≡ reserving_at local.now (instr_at image.now local.now.pc) reservation }
{
    match instr_at(image, local.pc) {
        Err(_) => reservation,
        Ok(instr) => reserving(local, &instr, reservation),
    }
}

/// The thread after a step; after a fault it stays.
fn went(image: &Image, visited: &Visited) -> Before
    ensures { seen_of result ≡ went image.now (seen_of visited.now.before) visited.now.outcome }
{
    let before = visited.before;
    match &visited.outcome {
        Outcome::Faults(_) => before,
        Outcome::Goes { local, .. } => Before {
            local: *local,
            link: reserving_at(image, &before.local, before.link),
        },
    }
}

/// What the spawn that made a thread hands on to it, none where no spawn did.
fn handed(calls: &[CallRec], notes: &[List<Note>], table: &Table, thread: u8) -> Option<Local>
    ensures some { IfSome result (λ local. local ≡ handed (told_of notes.now calls.now) (visits_in table.now) ((told_of notes.now calls.now).maker thread)) }
    ensures none { IfNone result (Begun (told_of notes.now calls.now) thread → thread ≡ 0) }
{
    let spawn = maker_of(calls, thread)?;
    let local = table.at(spawn).before.local;
    handed_by(notes_of(notes, spawn.thread), spawn.step, &local)
}

fn begins(
    image: &Image,
    calls: &[CallRec],
    notes: &[List<Note>],
    table: &Table,
    thread: u8,
) -> Option<Local>
    ensures some { IfSome result (λ local. local ≡ begins image.now (told_of notes.now calls.now) (visits_in table.now) thread) }
    ensures none { IfNone result (Begun (told_of notes.now calls.now) thread → ⊥) }
{
    if thread == 0 {
        return Some(Local::first(image.entry()));
    }
    handed(calls, notes, table, thread)
}

/// A thread before a step, none before the first step of a thread that no spawn made.
pub fn seen_before(
    image: &Image,
    calls: &[CallRec],
    notes: &[List<Note>],
    table: &Table,
    at: Pos,
) -> Option<Before>
    ensures some { IfSome result (λ before. seen_of before ≡ seen_before image.now (told_of notes.now calls.now) (visits_in table.now) at.thread at.step) }
    ensures none { IfNone result (Begun (told_of notes.now calls.now) at.thread → ⊥) }
{
    if at.step == 0 {
        let local = begins(image, calls, notes, table, at.thread)?;
        return Some(Before { local, link: None });
    }
    let last = Pos {
        thread: at.thread,
        step: at.step - 1,
    };
    Some(went(image, table.at(last)))
}

/// The value with which a thread ended: its a0 before the call by which it ended.
fn ended_with(table: &Table, end: Option<Pos>) -> u32
    ensures { result ≡ ended_with (visits_in table.now) end }
{
    match end {
        None => 0,
        Some(end) => table.at(end).before.local.register(10),
    }
}

/// The value that a step hands on where it joined a thread.
pub fn joined(calls: &[CallRec], notes: &[List<Note>], table: &Table, at: Pos) -> u32
    ensures { result ≡ joined_from (told_of notes.now calls.now) (visits_in table.now) (joins ((told_of notes.now calls.now).note at.thread at.step)) }
{
    match joined_by(notes_of(notes, at.thread), at.step) {
        None => 0,
        Some(target) => ended_with(table, ender_of(calls, target)),
    }
}
