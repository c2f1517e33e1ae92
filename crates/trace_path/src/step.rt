//! One step of a thread along its log.

ghost use Rattle.std.specs.Prelude.{◌≡◌, ◌+◌, option_map};
ghost use Rattle.rv_model.specs.Thread.{word_after};
ghost use Rattle.rv_model.specs.Instruction.{is_aligned};
ghost use Rattle.rv_model.specs.Walk.{aligned, goes_to, is_last};
ghost use Rattle.rv_model.specs.Accesses.{is_access, moves_bytes};
ghost use Rattle.trace_path.specs.Shown.{note_of};
ghost use Rattle.trace_path.specs.Steps.{next, next_by, stand_at};

use crate::cursor::{Cursor, Shown, next_told};
use elf_image::image::Image;
use odr_log::log::{Call, Log};
use rv_model::code::instr_at;
use rv_model::walk::{Place, Transfer, transfer_of};
use rv32_decode::instr::Instr;

/// A step: its place, what it shows, and where the thread then stands.
#[derive(Clone, Copy)]
pub struct Advanced<'a> {
    pub place: Place,
    pub shown: Shown<'a>,
    pub cursor: Cursor,
}

/// Whether an instruction may stand at an address: it is a multiple of four.
pub fn is_aligned(address: u32) -> bool
    ensures { result ≡ is_aligned address }
{
    address % 4 == 0
}

fn aligned(target: u32) -> Option<u32>
    ensures { result ≡ aligned target }
{
    if is_aligned(target) {
        Some(target)
    } else {
        None
    }
}

fn word_after(pc: u32) -> u32
    ensures { result ≡ word_after pc }
{
    pc.wrapping_add(4)
}

/// The address after an instruction that shows this, none where it can't show it.
fn goes_to(pc: u32, transfer: &Transfer, shown: &Shown<'_>) -> Option<u32>
    ensures { result ≡ goes_to pc transfer.now (note_of shown.now) }
{
    match (transfer, shown) {
        (Transfer::Next, Shown::Nothing) => Some(word_after(pc)),
        (Transfer::Direct { target }, Shown::Nothing) => aligned(*target),
        (Transfer::Indirect, Shown::Jump(target)) => aligned(*target),
        (Transfer::Branch { target }, Shown::Branch(true)) => aligned(*target),
        (Transfer::Branch { .. }, Shown::Branch(false)) => Some(word_after(pc)),
        (Transfer::Call, Shown::Call(_)) => Some(word_after(pc)),
        _ => None,
    }
}

/// Whether a step was an exit or the end of its thread.
fn is_last(shown: &Shown<'_>) -> bool
    ensures { result ≡ is_last (note_of shown.now) }
{
    match shown {
        Shown::Call(call) => matches!(call, Call::Exit { .. } | Call::EndThread),
        _ => false,
    }
}

/// Whether a call read or wrote at least one byte of memory.
fn moves_bytes(shown: &Shown<'_>) -> bool
    ensures { result ≡ moves_bytes (note_of shown.now) }
{
    match shown {
        Shown::Call(Call::Write { bytes } | Call::Read { bytes, .. }) => !bytes.is_empty(),
        _ => false,
    }
}

/// Whether a step read or wrote memory.
pub fn is_access(instr: &Instr, shown: &Shown<'_>) -> bool
    ensures { result ≡ is_access instr.now (note_of shown.now) }
{
    match instr {
        Instr::Load { .. }
        | Instr::Store { .. }
        | Instr::LoadReserved { .. }
        | Instr::StoreConditional { .. }
        | Instr::Amo { .. } => true,
        Instr::Ecall => moves_bytes(shown),
        _ => false,
    }
}

/// The next step of a thread that has neither exited nor ended, none where the log fits no step there.
#[tactic(auto, unfolding(crate::specs::Steps::next))]
pub fn advance<'a>(
    image: &Image,
    log: &'a Log,
    thread: usize,
    step: u32,
    cursor: &Cursor,
) -> Option<Advanced<'a>>
    ensures { option_map (next_by log.now thread (step + 1)) result ≡ next image.now (stand_at log.now thread step cursor.now) }
{
    if cursor.over {
        return None;
    }
    let Ok(instr) = instr_at(image, cursor.pc) else {
        return None;
    };
    let transfer = transfer_of(cursor.pc, &instr);
    let told = next_told(log, thread, step, cursor, &transfer)?;
    let pc = goes_to(cursor.pc, &transfer, &told.shown)?;
    Some(Advanced {
        place: Place {
            pc: cursor.pc,
            instr,
        },
        shown: told.shown,
        cursor: Cursor {
            pc,
            over: is_last(&told.shown),
            items: told.items,
            calls: told.calls,
        },
    })
}
