ghost use Rattle.std.specs.Prelude.{◌≡◌, ◌≤◌, ◌↔◌, length, IsTrue, IfOk};
ghost use Rattle.odr_log.specs.Grammar.{IsText};
ghost use Rattle.guest_calls.specs.Notes.{call_of, HasFewBytes, FitsFields};

use crate::piece::Piece;
use odr_list::bytes::Bytes;
use odr_list::memory::Memory;
use odr_log::log::Call;
use std::alloc::Global;

/// A guest call with what it answered, as `Call`, with its bytes kept in place. `call_of` is the `Call` that
/// it notes.
#[derive(Debug, Drop)]
pub enum CallNote {
    Exit { code: u32 },
    EndThread,
    Spawn { entry: u32, child: Option<u8> },
    Join { target: u32, ok: bool },
    Lock { mutex: u32, ok: bool },
    Unlock { mutex: u32, ok: bool },
    TryLock { mutex: u32, got: bool },
    Write { bytes: Piece },
    WriteBad,
    Read { want: u32, bytes: Piece },
    ReadBad,
    SelfId,
    Yield,
    Unknown { number: u32 },
}

/// The bytes of a call as a text of a log.
fn text_of(alloc: Global, bytes: &[u8]) -> Result<Bytes, Memory>
    requires { length bytes.now ≤ 256 }
    ensures value { IfOk result (λ text. text ≡ bytes.now) }
    ensures few { IfOk result (λ text. length text ≤ 256) }
    ensures spelled { IfOk result IsText }
{
    Bytes::from_slice(alloc, bytes)
}

impl CallNote {
    /// The record of the call.
    ///
    /// # Errors
    ///
    /// `Memory` alone.
    pub fn to_call(&self, alloc: Global) -> Result<Call, Memory>
        ensures value { IfOk result (λ call. call ≡ call_of self.now) }
        ensures few { IfOk result (λ call. HasFewBytes call) }
        ensures fields { IfOk result (λ call. FitsFields call) }
    {
        match self {
            CallNote::Exit { code } => Ok(Call::Exit { code: *code }),
            CallNote::EndThread => Ok(Call::EndThread),
            CallNote::Spawn { entry, child } => Ok(Call::Spawn {
                entry: *entry,
                child: *child,
            }),
            CallNote::Join { target, ok } => Ok(Call::Join {
                target: *target,
                ok: *ok,
            }),
            CallNote::Lock { mutex, ok } => Ok(Call::Lock {
                mutex: *mutex,
                ok: *ok,
            }),
            CallNote::Unlock { mutex, ok } => Ok(Call::Unlock {
                mutex: *mutex,
                ok: *ok,
            }),
            CallNote::TryLock { mutex, got } => Ok(Call::TryLock {
                mutex: *mutex,
                got: *got,
            }),
            CallNote::Write { bytes } => Ok(Call::Write {
                bytes: text_of(alloc, bytes.as_slice())?,
            }),
            CallNote::WriteBad => Ok(Call::WriteBad),
            CallNote::Read { want, bytes } => Ok(Call::Read {
                want: *want,
                bytes: text_of(alloc, bytes.as_slice())?,
            }),
            CallNote::ReadBad => Ok(Call::ReadBad),
            CallNote::SelfId => Ok(Call::SelfId),
            CallNote::Yield => Ok(Call::Yield),
            CallNote::Unknown { number } => Ok(Call::Unknown { number: *number }),
        }
    }

    /// Whether this is the note of a recorded call.
    pub fn notes(&self, call: &Call) -> bool
        ensures { IsTrue result ↔ (call_of self.now ≡ call.now) }
    {
        match (self, call) {
            (CallNote::Exit { code: a }, Call::Exit { code: b }) => a == b,
            (CallNote::Spawn { entry: a, child: c }, Call::Spawn { entry: b, child: d }) => {
                a == b && c == d
            }
            (CallNote::Join { target: a, ok: c }, Call::Join { target: b, ok: d })
            | (CallNote::Lock { mutex: a, ok: c }, Call::Lock { mutex: b, ok: d })
            | (CallNote::Unlock { mutex: a, ok: c }, Call::Unlock { mutex: b, ok: d })
            | (CallNote::TryLock { mutex: a, got: c }, Call::TryLock { mutex: b, got: d }) => {
                a == b && c == d
            }
            (CallNote::Write { bytes: a }, Call::Write { bytes: b }) => a.same(b.as_slice()),
            (CallNote::Read { want: a, bytes: c }, Call::Read { want: b, bytes: d }) => {
                a == b && c.same(d.as_slice())
            }
            (CallNote::Unknown { number: a }, Call::Unknown { number: b }) => a == b,
            (CallNote::EndThread, Call::EndThread)
            | (CallNote::WriteBad, Call::WriteBad)
            | (CallNote::ReadBad, Call::ReadBad)
            | (CallNote::SelfId, Call::SelfId)
            | (CallNote::Yield, Call::Yield) => true,
            _ => false,
        }
    }
}
