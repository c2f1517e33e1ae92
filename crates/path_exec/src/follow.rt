//! One counted step of a thread, with all that it changes.
ghost use Rattle.std.specs.Prelude.{◌≡◌, ◌^◌, ◌<◌, true, None, Some, is_some, length, slice_index_or, IfOk, OnOk};
ghost use Rattle.path_exec.specs.Following.{AreWords, CanBe, HasWalker, IsFollowed, end_left};
ghost use Rattle.rv32_decode.specs.Valid.{IsValid};
ghost use Rattle.rv_model.specs.Walk.{goes_to, transfer_of};
ghost use Rattle.step_terms.specs.Made.{Grows};

use crate::child::made_child;
use crate::joined::joined;
use crate::link::link_after;
use crate::progress::{Left, Progress};
use crate::step::take;
use crate::walker::Walker;
use bv_rewrite::rewrite::Rewrite;
use bv_terms::node::TermId;
use bv_terms::pool::TermPool;
use elf_image::image::Image;
use odr_list::memory::Memory;
use odr_log::log::{Call, Pos};
use rv_model::state::Note;
use rv_model::walk::Place;
use std::alloc::Global;
use thread_terms::registers::read;

/// The walker of a thread that has begun.
pub fn walker_of(walkers: &[Option<Walker>], thread: u8) -> Walker
    requires within { thread < length walkers.now }
    requires begun { is_some (slice_index_or walkers.now thread None) ≡ true }
    ensures { slice_index_or walkers.now thread None ≡ Some result }
{
    match walkers[usize::from(thread)] {
        Some(walker) => walker,
        None => unreachable!(),
    }
}

// a0 before a step that ends its thread.
fn end_left(walker: &Walker, shown: &Note) -> Option<TermId>
    ensures { result ≡ end_left walker.now shown.now }
{
    match shown {
        Note::Called(Call::EndThread) => Some(read(&walker.registers, 10)),
        _ => None,
    }
}

// The number of accesses, where it is a word.
fn number_of(count: usize) -> Result<u32, Memory>
    ensures { IfOk result (λ number. number ≡ count) }
{
    u32::try_from(count).map_err(|_| Memory)
}

/// Follows a step of a thread that has begun, as it is recorded.
///
/// # Errors
///
/// `Memory` alone, also where there are more than 2^32 accesses.
pub fn follow<R: Rewrite>(
    alloc: Global,
    pool: &mut TermPool<'_>,
    book: &R,
    image: &Image,
    pos: Pos,
    place: &Place,
    shown: &Note,
    progress: &mut Progress,
) -> Result<(), Memory>
    requires thread { pos.thread < 8 }
    requires step { pos.step < 2 ^ 18 }
    requires walker { HasWalker pool.old progress.old.walkers pos.thread }
    requires end { pos.thread < length progress.old.ends }
    requires words { AreWords pool.old progress.old.ends }
    requires valid { IsValid place.now.instr }
    requires leads { is_some (goes_to place.now.pc (transfer_of place.now.pc place.now.instr) shown.now) ≡ true }
    requires possible { CanBe shown.now }
    ensures followed { OnOk result (IsFollowed image.now pos place.now shown.now pool.old pool.new progress.old progress.new) }
    ensures grows { Grows pool.old pool.new }
{
    let before = walker_of(progress.walkers.as_slice(), pos.thread);
    let number = number_of(progress.accesses.len())?;
    let joined = joined(pool, progress.ends.as_slice(), shown)?;
    let child = made_child(pool, &before, shown)?;
    let mut walker = before;
    let stepped = take(
        alloc,
        pool,
        book,
        image,
        pos,
        place,
        shown,
        joined,
        &mut walker,
    )?;
    walker.link = link_after(&place.instr, number, before.link);
    let end = end_left(&before, shown);
    let left = Left {
        walker,
        child,
        end,
        stepped,
    };
    progress.keep(pos.thread, left)
}
