//! What a call leaves beside the shared state, from its note alone: a0, the buffer of a read, and how the
//! guest goes on.
ghost use Rattle.std.specs.Prelude.{◌≡◌, ◌≤◌};
ghost use Rattle.elf_image.specs.Memory.{Stands, load_bytes, all_writable};
ghost use Rattle.rv_model.specs.Instruction.{call_writes};
ghost use Rattle.rv_model.specs.Calls.{zero_if, answer_of};
ghost use Rattle.guest_mem.specs.Blocks.{cells_of};
ghost use Rattle.guest_calls.specs.Notes.{call_of};
ghost use Rattle.guest_calls.specs.Table.{after_of, HasBuffer};

use crate::call::After;
use crate::note::CallNote;
use crate::piece::{MOST, Piece};
use guest_mem::guest_memory::GuestMem;
use std::alloc::Global;

/// The bytes of a buffer, none where one may not be read.
pub fn bytes_at(alloc: Global, mem: &GuestMem, address: u32, count: u32) -> Option<Piece>
    requires { count ≤ 256 }
    ensures { result ≡ load_bytes (cells_of mem.now) address count }
{
    let mut bytes = [0; MOST];
    let part = &mut bytes[..count as usize];
    if mem.get_bytes(address, part) {
        Some(Piece::of(alloc, part))
    } else {
        None
    }
}

fn zero_if(ok: bool) -> u32
    ensures { result ≡ zero_if ok }
{
    if ok { 0 } else { u32::MAX }
}

/// a0 after a call.
pub fn answer_of(thread: u8, joined: u32, note: &CallNote, a0: u32) -> u32
    ensures { result ≡ answer_of thread joined (call_of note.now) a0 }
{
    match note {
        CallNote::Exit { .. } | CallNote::EndThread => a0,
        CallNote::Spawn { child, .. } => child.map_or(u32::MAX, u32::from),
        CallNote::Join { ok, .. } => { if *ok { joined } else { u32::MAX } }
        CallNote::Lock { ok, .. } | CallNote::Unlock { ok, .. } => zero_if(*ok),
        CallNote::TryLock { got, .. } => zero_if(*got),
        CallNote::Write { bytes } | CallNote::Read { bytes, .. } => bytes.len() as u32,
        CallNote::WriteBad | CallNote::ReadBad | CallNote::Unknown { .. } => u32::MAX,
        CallNote::SelfId => u32::from(thread),
        CallNote::Yield => 0,
    }
}

/// How the guest goes on after a call with this second argument.
pub fn after_of(a1: u32, note: &CallNote) -> After
    ensures { result ≡ after_of a1 (call_of note.now) }
{
    match note {
        CallNote::Exit { .. } => After::Halted,
        CallNote::EndThread => After::Ended,
        CallNote::Spawn {
            entry,
            child: Some(child),
        } => After::Spawned {
            child: *child,
            entry: *entry,
            arg: a1,
        },
        _ => After::Goes,
    }
}

/// Puts the bytes that a read got into its buffer.
pub fn fill_buffer(mem: &mut GuestMem, address: u32, note: &CallNote)
    requires { HasBuffer (cells_of mem.old) address (call_of note.now) }
    ensures { Stands (cells_of mem.old) (call_writes address (call_of note.now)) (cells_of mem.new) }
{
    if let CallNote::Read { bytes, .. } = note {
        mem.put_bytes(address, bytes.as_slice());
    }
}
