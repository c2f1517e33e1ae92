//! One step of a guided walk.

ghost use Rattle.std.specs.Prelude.{◌≡◌, ◌<◌, ◌≤◌, ◌^◌, ◌*◌, ◌/◌, [], length, Ok, IfOk, IfSome, IfNone, slice_index_or};
ghost use Rattle.elf_image.specs.Memory.{opening_cells, all_readable, all_writable};
ghost use Rattle.rv32_decode.specs.Valid.{IsValid};
ghost use Rattle.rv_model.specs.Step.{instr_at};
ghost use Rattle.plain_machine.specs.Met.{HasCount, IsMet};
ghost use Rattle.guided_walk.specs.Guided.{met, linked, hears, visit_from, visit};
ghost use Rattle.plain_walk.specs.Data.{given_of, seen_of, visit_of, byte_of, supplied_at};
ghost use Rattle.walk_lists.specs.Data.{told_of, noted_in};
ghost use Rattle.plain_walk.specs.Heard.{heard_of, outcome_of};
ghost use Rattle.plain_walk.specs.Tables.{visits_in};
ghost use Rattle.plain_walk.specs.Begun.{CanBegin};

use crate::before::{joined, seen_before};
use crate::given::{Supplied, bytes_at, padded, won_at};
use crate::table::{Before, Table, Visited};
use crate::told::{notes_of, reply_at};
use elf_image::image::Image;
use odr_list::list::List;
use odr_list::memory::Memory;
use odr_log::log::{CallRec, Pos};
use plain_machine::act::{access_of, act, conditional_of};
use plain_machine::memory::{all_readable, all_writable};
use rv_model::code::instr_at;
use rv_model::hearing::{Access, Heard, Outcome, Reach, Reply};
use rv_model::state::Note;
use rv_model::writes::Writes;
use rv32_decode::instr::Instr;
use std::alloc::Global;

#[tactic(auto, using(crate::proofs::RightLemmas::rights))]
fn is_readable(alloc: Global, image: &Image, access: Access) -> bool
    ensures { result ≡ all_readable (opening_cells image.now) access.address access.count }
{
    all_readable(image, &Writes::new(alloc), access.address, access.count)
}

#[tactic(auto, using(crate::proofs::RightLemmas::rights))]
fn is_writable(alloc: Global, image: &Image, access: Access) -> bool
    ensures { result ≡ all_writable (opening_cells image.now) access.address access.count }
{
    all_writable(image, &Writes::new(alloc), access.address, access.count)
}

/// An access with the rights of image and stacks, and with these bytes.
fn met(alloc: Global, image: &Image, bytes: &[u8], access: Access) -> Result<Reach, Memory>
    ensures value { IfOk result (λ reach. reach ≡ met image.now (byte_of bytes.now) access) }
    ensures count { IfOk result (HasCount access.count) }
{
    let writable = is_writable(alloc, image, access);
    if !is_readable(alloc, image, access) {
        return Ok(Reach {
            bytes: None,
            writable,
        });
    }
    let bytes = padded(alloc, bytes, access.count)?;
    Ok(Reach {
        bytes: Some(bytes),
        writable,
    })
}

/// Whether a store-conditional succeeds: as it is given where it looks back to a load-reserved, and else not.
fn linked(conditional: Option<u32>, link: Option<u32>, won: bool) -> bool
    ensures { result ≡ linked conditional link won }
{
    conditional.is_some() && link.is_some() && won
}

/// What an instruction of a walk hears, by the reply that is recorded of it and the value that its join hands on.
#[tactic(auto)]
fn hears(
    alloc: Global,
    image: &Image,
    rows: &[List<Supplied>],
    at: Pos,
    before: &Before,
    instr: &Instr,
    reply: Reply,
    joined: u32,
) -> Result<Heard, Memory>
    requires next { Ok instr.now ≡ instr_at image.now before.now.local.pc }
    requires valid { IsValid instr.now }
    requires brief { length reply.bytes < 2 ^ 32 }
    ensures value { IfOk result (λ heard. heard ≡ heard_of image.now (given_of rows.now) at.thread at.step (seen_of before.now) reply joined) }
    ensures met { IfOk result (λ heard. IsMet before.now.local instr.now heard) }
{
    let access = access_of(&before.local, instr);
    let reach = met(alloc, image, bytes_at(rows, at), access)?;
    let conditional = conditional_of(&before.local, instr);
    Ok(Heard {
        thread: at.thread,
        won: linked(conditional, before.link, won_at(rows, at)),
        reply,
        joined,
        reach,
    })
}

/// What a thread does at a step, none where what it is replied is longer than a word can count.
fn outcome(
    alloc: Global,
    image: &Image,
    rows: &[List<Supplied>],
    at: Pos,
    before: &Before,
    reply: Reply,
    joined: u32,
) -> Result<Option<Outcome>, Memory>
    ensures some { IfOk result (λ found. IfSome found (λ outcome. outcome ≡ outcome_of image.now (given_of rows.now) at.thread at.step (seen_of before.now) reply joined)) }
    ensures none { IfOk result (λ found. IfNone found (length reply.bytes < 2 ^ 32 → ⊥)) }
{
    if reply.bytes.len() > u32::MAX as usize {
        return Ok(None);
    }
    let instr = match instr_at(image, before.local.pc) {
        Err(cause) => return Ok(Some(Outcome::Faults(cause))),
        Ok(instr) => instr,
    };
    let heard = hears(alloc, image, rows, at, before, &instr, reply, joined)?;
    let outcome = act(alloc, before.local, &instr, heard)?;
    Ok(Some(outcome))
}

/// What a step is by the visits of the steps before it; none before the first step of a thread that no spawn made, and
/// where more bytes are recorded to be read than a word can count.
pub fn visit(
    alloc: Global,
    image: &Image,
    calls: &[CallRec],
    notes: &[List<Note>],
    rows: &[List<Supplied>],
    table: &Table,
    at: Pos,
) -> Result<Option<Visited>, Memory>
    ensures at { IfOk result (λ found. IfSome found (λ visited. visited.at ≡ at)) }
    ensures some { IfOk result (λ found. IfSome found (λ visited. visit_of visited ≡ visit image.now (told_of notes.now calls.now) (given_of rows.now) (visits_in table.now) at.thread at.step)) }
    ensures none { IfOk result (λ found. IfNone found (CanBegin (told_of notes.now calls.now) at → ⊥)) }
{
    let Some(before) = seen_before(image, calls, notes, table, at) else {
        return Ok(None);
    };
    let joined = joined(calls, notes, table, at);
    let reply = reply_at(alloc, notes_of(notes, at.thread), at.step)?;
    let Some(outcome) = outcome(alloc, image, rows, at, &before, reply, joined)? else {
        return Ok(None);
    };
    Ok(Some(Visited {
        at,
        before,
        outcome,
    }))
}
