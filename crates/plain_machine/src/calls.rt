ghost use Rattle.std.specs.Prelude.{◌≡◌, ◌<◌, ◌≤◌, length, take, drop, slice_index_or, slice_set, nat_eq, nat_lt, ◌%◌, ◌&&◌, IfOk, ◌^◌, if◌then◌else◌};
ghost use Rattle.plain_machine.specs.Short.{IsShort};
ghost use Rattle.rv_model.specs.Calls.{fits_buffer, writing, kind_at, asked_of, made, end_value, owner_of, is_thread, is_other, waits, reply_to, join_value, no_reply, says, calls_after, record_of, answer_of, zero_if};

use odr_list::bytes::Bytes;
use odr_list::list::List;
use odr_list::memory::Memory;
use odr_log::log::Call;
use rv_model::hearing::{Asked, Kind, Reach, Reply};
use rv_model::state::{Calls, Local};
use std::alloc::Global;

/// The call that an ECALL makes, by its number and arguments and what its buffer meets.
pub fn kind_at(local: &Local, reach: Reach) -> Kind
    ensures { result ≡ kind_at local.now reach }
{
    let a0 = local.register(10);
    let a1 = local.register(11);
    match local.register(17) {
        1 => Kind::Exit { code: a0 },
        2 => Kind::EndThread,
        3 => Kind::Spawn { entry: a0 },
        4 => Kind::Join { target: a0 },
        5 => Kind::Lock { mutex: a0 },
        6 => Kind::Unlock { mutex: a0 },
        7 => Kind::TryLock { mutex: a0 },
        8 => write_kind(a1, reach.bytes),
        9 if a1 <= 256 && reach.writable => Kind::Read { want: a1 },
        9 => Kind::ReadBad,
        10 => Kind::SelfId,
        11 => Kind::Yield,
        number => Kind::Unknown { number },
    }
}

fn write_kind(count: u32, bytes: Option<Bytes>) -> Kind
    ensures { result ≡ (if fits_buffer count then writing bytes else Kind.WriteBad) }
{
    match bytes {
        Some(bytes) if count <= 256 => Kind::Write { bytes },
        _ => Kind::WriteBad,
    }
}

/// What a call asks of the shared state.
pub fn asked_at(local: &Local, reach: &Reach) -> Option<Asked>
    ensures { result ≡ asked_of (kind_at local.now reach.now) }
{
    let a0 = local.register(10);
    let a1 = local.register(11);
    match local.register(17) {
        3 => Some(Asked::Spawn { entry: a0 }),
        4 => Some(Asked::Join { target: a0 }),
        5 => Some(Asked::Lock { mutex: a0 }),
        6 => Some(Asked::Unlock { mutex: a0 }),
        7 => Some(Asked::TryLock { mutex: a0 }),
        9 if a1 <= 256 && reach.writable => Some(Asked::Read { want: a1 }),
        _ => None,
    }
}

/// The record of a call that was answered so.
pub fn record_of(kind: Kind, reply: Reply) -> Call
    ensures { result ≡ record_of kind reply }
{
    match kind {
        Kind::Exit { code } => Call::Exit { code },
        Kind::EndThread => Call::EndThread,
        Kind::Spawn { entry } => Call::Spawn {
            entry,
            child: reply.child,
        },
        Kind::Join { target } => Call::Join {
            target,
            ok: reply.ok,
        },
        Kind::Lock { mutex } => Call::Lock {
            mutex,
            ok: reply.ok,
        },
        Kind::Unlock { mutex } => Call::Unlock {
            mutex,
            ok: reply.ok,
        },
        Kind::TryLock { mutex } => Call::TryLock {
            mutex,
            got: reply.ok,
        },
        Kind::Write { bytes } => Call::Write { bytes },
        Kind::WriteBad => Call::WriteBad,
        Kind::Read { want } => Call::Read {
            want,
            bytes: reply.bytes,
        },
        Kind::ReadBad => Call::ReadBad,
        Kind::SelfId => Call::SelfId,
        Kind::Yield => Call::Yield,
        Kind::Unknown { number } => Call::Unknown { number },
    }
}

fn zero_if(ok: bool) -> u32
    ensures { result ≡ zero_if ok }
{
    if ok { 0 } else { u32::MAX }
}

fn length_of(bytes: &Bytes) -> u32
    requires { length bytes.now < 2 ^ 32 }
    ensures { result ≡ length bytes.now }
{
    bytes.len() as u32
}

/// a0 after a call.
pub fn answer_of(thread: u8, joined: u32, call: &Call, a0: u32) -> u32
    requires { IsShort call.now }
    ensures { result ≡ answer_of thread joined call.now a0 }
{
    match call {
        Call::Exit { .. } | Call::EndThread => a0,
        Call::Spawn { child, .. } => child.map_or(u32::MAX, u32::from),
        Call::Join { ok, .. } => { if *ok { joined } else { u32::MAX } }
        Call::Lock { ok, .. } | Call::Unlock { ok, .. } => zero_if(*ok),
        Call::TryLock { got, .. } => zero_if(*got),
        Call::Write { bytes } | Call::Read { bytes, .. } => length_of(bytes),
        Call::WriteBad | Call::ReadBad | Call::Unknown { .. } => u32::MAX,
        Call::SelfId => u32::from(thread),
        Call::Yield => 0,
    }
}

/// The number of threads that were made.
fn made(calls: &Calls) -> usize
    ensures { result ≡ made calls.now }
{
    calls.ended.len()
}

/// The value with which a thread ended.
pub fn end_value(calls: &Calls, thread: u32) -> Option<u32>
    ensures { result ≡ end_value calls.now thread }
{
    let ended = calls.ended.as_slice();
    if (thread as usize) < ended.len() {
        ended[thread as usize]
    } else {
        None
    }
}

fn owner_of(calls: &Calls, mutex: u32) -> Option<u8>
    ensures { result ≡ owner_of calls.now mutex }
{
    owner_in(&calls.owners, mutex)
}

fn owner_in(owners: &[Option<u8>; 32], mutex: u32) -> Option<u8>
    ensures { result ≡ slice_index_or owners.now mutex None }
{
    if mutex < 32 {
        owners[mutex as usize]
    } else {
        None
    }
}

/// Whether a thread that asks this waits.
pub fn waits(calls: &Calls, thread: u8, asked: Option<Asked>) -> bool
    ensures { result ≡ waits calls.now thread asked }
{
    match asked {
        Some(Asked::Join { target }) => {
            target != u32::from(thread)
                && ((target as usize) < made(calls) && end_value(calls, target).is_none())
        }
        Some(Asked::Lock { mutex }) => {
            mutex < 32 && owner_of(calls, mutex).is_some_and(|owner| owner != thread)
        }
        _ => false,
    }
}

/// The value that a join hands on.
pub fn join_value(calls: &Calls, asked: Option<Asked>) -> u32
    ensures { result ≡ join_value calls.now asked }
{
    match asked {
        Some(Asked::Join { target }) => end_value(calls, target).unwrap_or(0),
        _ => 0,
    }
}

/// What a thread is answered that does not wait.
pub fn reply_to(
    alloc: Global,
    calls: &Calls,
    thread: u8,
    asked: Option<Asked>,
) -> Result<Reply, Memory>
    ensures value { IfOk result (λ reply. reply ≡ reply_to calls.now thread asked) }
    ensures short { IfOk result (λ reply. length reply.bytes < 2 ^ 32) }
{
    match asked {
        None => Ok(no_reply(alloc)),
        Some(Asked::Spawn { entry }) => Ok(Reply {
            child: child_for(calls, entry),
            ..no_reply(alloc)
        }),
        Some(Asked::Join { target }) => Ok(says(
            alloc,
            target != u32::from(thread) && end_value(calls, target).is_some(),
        )),
        Some(Asked::Lock { mutex } | Asked::TryLock { mutex }) => {
            Ok(says(alloc, mutex < 32 && owner_of(calls, mutex).is_none()))
        }
        Some(Asked::Unlock { mutex }) => Ok(says(
            alloc,
            mutex < 32 && owner_of(calls, mutex).is_some_and(|owner| owner == thread),
        )),
        Some(Asked::Read { want }) => Ok(Reply {
            bytes: front_of(alloc, &calls.tape, want)?,
            ..no_reply(alloc)
        }),
    }
}

/// The number of the thread that a spawn makes, none where it is misused.
fn child_for(calls: &Calls, entry: u32) -> Option<u8>
    ensures { result ≡ (if nat_eq (entry % 4) 0 && nat_lt (made calls.now) 8 then Some (made calls.now) else None) }
{
    let made = made(calls);
    if entry % 4 == 0 && made < 8 {
        Some(made as u8)
    } else {
        None
    }
}

fn no_reply(alloc: Global) -> Reply
    ensures { result ≡ no_reply }
{
    Reply {
        ok: false,
        child: None,
        bytes: Bytes::new(alloc),
    }
}

fn says(alloc: Global, ok: bool) -> Reply
    ensures { result ≡ says ok }
{
    Reply {
        ok,
        child: None,
        bytes: Bytes::new(alloc),
    }
}

/// The first bytes of a text, at most `count` of them.
fn front_of(alloc: Global, bytes: &Bytes, count: u32) -> Result<Bytes, Memory>
    ensures value { IfOk result (λ front. front ≡ take count bytes.now) }
    ensures short { IfOk result (λ front. length front ≤ count) }
{
    let bytes = bytes.as_slice();
    let count = bytes.len().min(count as usize);
    Bytes::from_slice(alloc, &bytes[..count])
}

/// A text without its first bytes.
fn rest_of(alloc: Global, bytes: &Bytes, count: usize) -> Result<Bytes, Memory>
    ensures { IfOk result (λ rest. rest ≡ drop count bytes.now) }
{
    let bytes = bytes.as_slice();
    let count = bytes.len().min(count);
    Bytes::from_slice(alloc, &bytes[count..])
}

/// The shared state after a call; an ending thread ends with its a0.
pub fn calls_after(
    alloc: Global,
    calls: Calls,
    thread: u8,
    a0: u32,
    call: &Call,
) -> Result<Calls, Memory>
    ensures { IfOk result (λ after. after ≡ calls_after calls thread a0 call.now) }
{
    let mut calls = calls;
    match call {
        Call::EndThread => set_end(&mut calls.ended, thread, a0),
        Call::Spawn { child: Some(_), .. } => calls.ended.push(None)?,
        Call::Lock { mutex, ok: true } | Call::TryLock { mutex, got: true } => {
            set_owner(&mut calls.owners, *mutex, Some(thread));
        }
        Call::Unlock { mutex, ok: true } => set_owner(&mut calls.owners, *mutex, None),
        Call::Read { bytes, .. } => calls.tape = rest_of(alloc, &calls.tape, bytes.len())?,
        _ => {}
    }
    Ok(calls)
}

fn set_owner(owners: &mut [Option<u8>; 32], mutex: u32, owner: Option<u8>)
    ensures { owners.new ≡ slice_set owners.old mutex owner }
{
    if mutex < 32 {
        owners[mutex as usize] = owner;
    }
}

fn set_end(ended: &mut List<Option<u32>>, thread: u8, value: u32)
    ensures { ended.new ≡ slice_set ended.old thread (Some value) }
{
    if (thread as usize) < ended.len() {
        ended.set(thread as usize, Some(value));
    }
}
