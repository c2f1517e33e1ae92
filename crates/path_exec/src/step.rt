//! One step of a thread, of any kind but a fault.
ghost use Rattle.std.specs.Prelude.{◌≡◌, ◌⊎◌, ◌^◌, ◌<◌, ℕ, true, is_some, IfOk, OnOk};
ghost use Rattle.bv_terms.specs.Values.{value_at};
ghost use Rattle.bv_terms.specs.Variables.{Occurs};
ghost use Rattle.path_exec.specs.Following.{CanBe, IsTaken};
ghost use Rattle.rv32_decode.specs.Valid.{IsValid};
ghost use Rattle.rv_model.specs.Walk.{goes_to, transfer_of};
ghost use Rattle.step_terms.specs.Made.{Grows, IsTerm};
ghost use Rattle.thread_terms.specs.Standing.{AreRegisters};

use crate::walker::Walker;
use access_terms::next::next;
use bv_rewrite::rewrite::Rewrite;
use bv_terms::node::TermId;
use bv_terms::pool::TermPool;
use call_terms::call::call;
use elf_image::image::Image;
use odr_list::memory::Memory;
use odr_log::log::Pos;
use rv_model::state::Note;
use rv_model::walk::Place;
use std::alloc::Global;
use thread_terms::access::Stepped;

/// The step at a place, as it is recorded: what it adds to the terms, where a join hands on the value of a term; and the terms of
/// the registers after it.
pub fn take<R: Rewrite>(
    alloc: Global,
    pool: &mut TermPool<'_>,
    book: &R,
    image: &Image,
    pos: Pos,
    place: &Place,
    shown: &Note,
    joined: TermId,
    walker: &mut Walker,
) -> Result<Stepped, Memory>
    requires registers { AreRegisters pool.old walker.old.registers }
    requires joined { IsTerm pool.old 32 joined.number }
    requires thread { pos.thread < 8 }
    requires step { pos.step < 2 ^ 18 }
    requires valid { IsValid place.now.instr }
    requires leads { is_some (goes_to place.now.pc (transfer_of place.now.pc place.now.instr) shown.now) ≡ true }
    requires possible { CanBe shown.now }
    ensures taken { IfOk result (IsTaken image.now pos place.now shown.now walker.old pool.old pool.new walker.new.registers joined) }
    ensures registers { OnOk result (AreRegisters pool.new walker.new.registers) }
    ensures link { walker.new.link ≡ walker.old.link }
    ensures grows { Grows pool.old pool.new }
{
    let link = walker.link;
    match shown {
        Note::Called(made) => call(
            alloc,
            pool,
            book,
            image,
            pos,
            &mut walker.registers,
            joined,
            made,
        ),
        _ => next(
            alloc,
            pool,
            book,
            image,
            pos,
            place,
            shown,
            link,
            &mut walker.registers,
        ),
    }
}
