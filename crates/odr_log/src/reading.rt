//! Readers of the parts of a log. Each gives its part and the bytes after it.

ghost use Rattle.std.specs.Prelude.{◌≡◌, ◌<◌, ◌==◌, [], ◌∷◌, ◌++◌, length, codes, if◌then◌else◌};
ghost use Rattle.std.specs.Int.{w16, w32};
ghost use Rattle.odr_log.specs.Reading.{Gives, byte_at, number_at, bytes_at, text_at, flag_at, list_at, item_at, thread_at, child_at, spawned_at, wanted_at, flagged_at, fields_at, record_at, cause_of as code_cause, cause_at, exited_at, faulted_at, end_at, mark_at, body_at, log_at, whole_at};

use crate::log::{Call, CallRec, Cause, End, Log, PathItem, ThreadLog};
use crate::stop::Stop;
use odr_list::bytes::Bytes;
use odr_list::list::List;
use std::alloc::Global;

/// A byte from `low` to `high`.
fn byte_of(bytes: &[u8], low: u8, high: u8) -> Result<(u8, &[u8]), Stop>
    ensures { Gives (λ x. (x.0, x.1.now)) result (byte_at low high bytes.now) }
{
    match bytes {
        [byte, rest @ ..] if low <= *byte && *byte <= high => Ok((*byte, rest)),
        _ => Err(Stop::Bad { left: bytes.len() }),
    }
}

fn u16_of(bytes: &[u8]) -> Result<(u16, &[u8]), Stop>
    ensures { Gives (λ x. (x.0, x.1.now)) result (number_at w16 bytes.now) }
{
    if bytes.len() < 2 {
        return Err(Stop::Bad { left: 0 });
    }
    let (front, rest) = bytes.split_at(2);
    Ok((u16::from_le_bytes([front[0], front[1]]), rest))
}

fn u32_of(bytes: &[u8]) -> Result<(u32, &[u8]), Stop>
    ensures { Gives (λ x. (x.0, x.1.now)) result (number_at w32 bytes.now) }
{
    if bytes.len() < 4 {
        return Err(Stop::Bad { left: 0 });
    }
    let (front, rest) = bytes.split_at(4);
    let number = u32::from_le_bytes([front[0], front[1], front[2], front[3]]);
    Ok((number, rest))
}

/// A text: its length in two bytes, and its bytes.
#[tactic(auto, unfolding(crate::specs::Reading::text_at))]
fn text_of(alloc: Global, bytes: &[u8]) -> Result<(Bytes, &[u8]), Stop>
    ensures { Gives (λ x. (x.0, x.1.now)) result (text_at bytes.now) }
{
    let (len, rest) = u16_of(bytes)?;
    let len = len as usize;
    if rest.len() < len {
        return Err(Stop::Bad { left: 0 });
    }
    let (text, rest) = rest.split_at(len);
    Ok((Bytes::from_slice(alloc, text)?, rest))
}

#[tactic(auto, unfolding(crate::specs::Reading::flag_at))]
fn flag_of(bytes: &[u8]) -> Result<(bool, &[u8]), Stop>
    ensures { Gives (λ x. (x.0, x.1.now)) result (flag_at bytes.now) }
{
    let (byte, rest) = byte_of(bytes, 0, 1)?;
    Ok((byte == 1, rest))
}

#[tactic(auto, unfolding(crate::specs::Reading::item_at))]
fn item_of(bytes: &[u8]) -> Result<(PathItem, &[u8]), Stop>
    ensures { Gives (λ x. (x.0, x.1.now)) result (item_at bytes.now) }
{
    let (kind, rest) = byte_of(bytes, 0, 2)?;
    if kind == 2 {
        let (target, rest) = u32_of(rest)?;
        return Ok((PathItem::Jump(target), rest));
    }
    Ok((PathItem::Branch(kind == 1), rest))
}

#[tactic(auto, unfolding(crate::specs::Reading::child_at))]
fn child_of(bytes: &[u8]) -> Result<(Option<u8>, &[u8]), Stop>
    ensures { Gives (λ x. (x.0, x.1.now)) result (child_at bytes.now) }
{
    let (byte, rest) = byte_of(bytes, 0, u8::MAX)?;
    Ok((child_in(byte), rest))
}

/// A child, which is none where it is 255.
fn child_in(byte: u8) -> Option<u8>
    ensures { result ≡ (if byte == 255 then None else Some byte) }
{
    if byte == u8::MAX { None } else { Some(byte) }
}

/// An entry and a child.
#[tactic(auto, unfolding(crate::specs::Reading::spawned_at))]
fn spawned_of(bytes: &[u8]) -> Result<((u32, Option<u8>), &[u8]), Stop>
    ensures { Gives (λ x. (x.0, x.1.now)) result (spawned_at bytes.now) }
{
    let (entry, rest) = u32_of(bytes)?;
    let (child, rest) = child_of(rest)?;
    Ok(((entry, child), rest))
}

/// How many bytes were wanted, and those that came.
#[tactic(auto, unfolding(crate::specs::Reading::wanted_at))]
fn wanted_of(alloc: Global, bytes: &[u8]) -> Result<((u32, Bytes), &[u8]), Stop>
    ensures { Gives (λ x. (x.0, x.1.now)) result (wanted_at bytes.now) }
{
    let (want, rest) = u32_of(bytes)?;
    let (text, rest) = text_of(alloc, rest)?;
    Ok(((want, text), rest))
}

/// A number and a flag.
#[tactic(auto, unfolding(crate::specs::Reading::flagged_at))]
fn flagged_of(bytes: &[u8]) -> Result<((u32, bool), &[u8]), Stop>
    ensures { Gives (λ x. (x.0, x.1.now)) result (flagged_at bytes.now) }
{
    let (number, rest) = u32_of(bytes)?;
    let (flag, rest) = flag_of(rest)?;
    Ok(((number, flag), rest))
}

/// The fields of a call of this kind.
#[tactic(auto, unfolding(crate::specs::Reading::fields_at))]
fn fields_of(alloc: Global, kind: u8, bytes: &[u8]) -> Result<(Call, &[u8]), Stop>
    ensures { Gives (λ x. (x.0, x.1.now)) result (fields_at kind bytes.now) }
{
    match kind {
        1 => {
            let (code, rest) = u32_of(bytes)?;
            Ok((Call::Exit { code }, rest))
        }
        2 => Ok((Call::EndThread, bytes)),
        3 => {
            let ((entry, child), rest) = spawned_of(bytes)?;
            Ok((Call::Spawn { entry, child }, rest))
        }
        4 => {
            let ((target, ok), rest) = flagged_of(bytes)?;
            Ok((Call::Join { target, ok }, rest))
        }
        5 => {
            let ((mutex, ok), rest) = flagged_of(bytes)?;
            Ok((Call::Lock { mutex, ok }, rest))
        }
        6 => {
            let ((mutex, ok), rest) = flagged_of(bytes)?;
            Ok((Call::Unlock { mutex, ok }, rest))
        }
        7 => {
            let ((mutex, got), rest) = flagged_of(bytes)?;
            Ok((Call::TryLock { mutex, got }, rest))
        }
        8 => {
            let (bytes, rest) = text_of(alloc, bytes)?;
            Ok((Call::Write { bytes }, rest))
        }
        9 => {
            let ((want, bytes), rest) = wanted_of(alloc, bytes)?;
            Ok((Call::Read { want, bytes }, rest))
        }
        10 => Ok((Call::SelfId, bytes)),
        11 => Ok((Call::Yield, bytes)),
        12 => Ok((Call::WriteBad, bytes)),
        13 => Ok((Call::ReadBad, bytes)),
        _ => {
            let (number, rest) = u32_of(bytes)?;
            Ok((Call::Unknown { number }, rest))
        }
    }
}

/// A call of one of so many threads.
#[tactic(auto, unfolding(crate::specs::Reading::record_at))]
fn record_of(alloc: Global, threads: u8, bytes: &[u8]) -> Result<(CallRec, &[u8]), Stop>
    requires { 0 < threads }
    ensures { Gives (λ x. (x.0, x.1.now)) result (record_at threads bytes.now) }
{
    let (tid, rest) = byte_of(bytes, 0, threads - 1)?;
    let (at, rest) = u32_of(rest)?;
    let (kind, rest) = byte_of(rest, 0x01, 0x0e)?;
    let (call, rest) = fields_of(alloc, kind, rest)?;
    Ok((CallRec { tid, at, call }, rest))
}

fn cause_of_code(code: u8) -> Cause
    ensures { result ≡ code_cause code }
{
    match code {
        1 => Cause::FetchFault,
        2 => Cause::Illegal,
        3 => Cause::Misaligned,
        4 => Cause::LoadFault,
        5 => Cause::StoreFault,
        6 => Cause::AmoFault,
        _ => Cause::Breakpoint,
    }
}

#[tactic(auto, unfolding(crate::specs::Reading::cause_at))]
fn cause_of(bytes: &[u8]) -> Result<(Cause, &[u8]), Stop>
    ensures { Gives (λ x. (x.0, x.1.now)) result (cause_at bytes.now) }
{
    let (code, rest) = byte_of(bytes, 1, 7)?;
    Ok((cause_of_code(code), rest))
}

/// A thread of so many, and its exit code.
#[tactic(auto, unfolding(crate::specs::Reading::exited_at))]
fn exited_of(threads: u8, bytes: &[u8]) -> Result<((u8, u32), &[u8]), Stop>
    requires { 0 < threads }
    ensures { Gives (λ x. (x.0, x.1.now)) result (exited_at threads bytes.now) }
{
    let (tid, rest) = byte_of(bytes, 0, threads - 1)?;
    let (code, rest) = u32_of(rest)?;
    Ok(((tid, code), rest))
}

/// A thread of so many, and why it faulted.
#[tactic(auto, unfolding(crate::specs::Reading::faulted_at))]
fn faulted_of(threads: u8, bytes: &[u8]) -> Result<((u8, Cause), &[u8]), Stop>
    requires { 0 < threads }
    ensures { Gives (λ x. (x.0, x.1.now)) result (faulted_at threads bytes.now) }
{
    let (tid, rest) = byte_of(bytes, 0, threads - 1)?;
    let (cause, rest) = cause_of(rest)?;
    Ok(((tid, cause), rest))
}

#[tactic(auto, unfolding(crate::specs::Reading::end_at, crate::specs::Reading::end_fields_at))]
fn end_of(threads: u8, bytes: &[u8]) -> Result<(End, &[u8]), Stop>
    requires { 0 < threads }
    ensures { Gives (λ x. (x.0, x.1.now)) result (end_at threads bytes.now) }
{
    let (kind, rest) = byte_of(bytes, 0, 3)?;
    match kind {
        0 => Ok((End::Cut, rest)),
        1 => {
            let ((tid, code), rest) = exited_of(threads, rest)?;
            Ok((End::Exited { tid, code }, rest))
        }
        2 => {
            let ((tid, cause), rest) = faulted_of(threads, rest)?;
            Ok((End::Faulted { tid, cause }, rest))
        }
        _ => Ok((End::AllDone, rest)),
    }
}

fn path_of(alloc: Global, count: u32, bytes: &[u8]) -> Result<(List<PathItem>, &[u8]), Stop>
    ensures { Gives (λ x. (x.0, x.1.now)) result (list_at item_at count bytes.now) }
{
    let mut path = List::new(alloc);
    let mut rest = bytes;
    for _ in 0..count {
        let (item, after) = item_of(rest)?;
        path.push(item)?;
        rest = after;
    }
    Ok((path, rest))
}

#[tactic(auto, unfolding(crate::specs::Reading::thread_at))]
fn thread_of(alloc: Global, bytes: &[u8]) -> Result<(ThreadLog, &[u8]), Stop>
    ensures { Gives (λ x. (x.0, x.1.now)) result (thread_at bytes.now) }
{
    let (steps, rest) = u32_of(bytes)?;
    let (count, rest) = u32_of(rest)?;
    let (path, rest) = path_of(alloc, count, rest)?;
    Ok((ThreadLog { steps, path }, rest))
}

fn threads_of(alloc: Global, count: u8, bytes: &[u8]) -> Result<(List<ThreadLog>, &[u8]), Stop>
    ensures { Gives (λ x. (x.0, x.1.now)) result (list_at thread_at count bytes.now) }
{
    let mut threads = List::new(alloc);
    let mut rest = bytes;
    for _ in 0..count {
        let (thread, after) = thread_of(alloc, rest)?;
        threads.push(thread)?;
        rest = after;
    }
    Ok((threads, rest))
}

fn calls_of(
    alloc: Global,
    threads: u8,
    count: u32,
    bytes: &[u8],
) -> Result<(List<CallRec>, &[u8]), Stop>
    requires { 0 < threads }
    ensures { Gives (λ x. (x.0, x.1.now)) result (list_at (record_at threads) count bytes.now) }
{
    let mut calls = List::new(alloc);
    let mut rest = bytes;
    for _ in 0..count {
        let (call, after) = record_of(alloc, threads, rest)?;
        calls.push(call)?;
        rest = after;
    }
    Ok((calls, rest))
}

/// The mark of a log and the version.
#[tactic(auto, unfolding(crate::specs::Reading::mark_at))]
fn mark_of(bytes: &[u8]) -> Result<&[u8], Stop>
    ensures { Gives (λ rest. rest.now) result (mark_at (codes "ODRL" ++ 1 ∷ []) bytes.now) }
{
    let (_, rest) = byte_of(bytes, b'O', b'O')?;
    let (_, rest) = byte_of(rest, b'D', b'D')?;
    let (_, rest) = byte_of(rest, b'R', b'R')?;
    let (_, rest) = byte_of(rest, b'L', b'L')?;
    let (_, rest) = byte_of(rest, 1, 1)?;
    Ok(rest)
}

/// The calls and the end of a log with these threads.
#[tactic(auto, unfolding(crate::specs::Reading::body_at))]
fn body_of(alloc: Global, threads: List<ThreadLog>, bytes: &[u8]) -> Result<(Log, &[u8]), Stop>
    requires some { 0 < length threads }
    requires few { length threads < 256 }
    ensures { Gives (λ x. (x.0, x.1.now)) result (body_at threads bytes.now) }
{
    let number = threads.len() as u8;
    let (count, rest) = u32_of(bytes)?;
    let (calls, rest) = calls_of(alloc, number, count, rest)?;
    let (end, rest) = end_of(number, rest)?;
    let log = Log {
        version: 1,
        threads,
        calls,
        end,
    };
    Ok((log, rest))
}

#[tactic(auto, unfolding(crate::specs::Reading::log_at))]
fn log_of(alloc: Global, bytes: &[u8]) -> Result<(Log, &[u8]), Stop>
    ensures { Gives (λ x. (x.0, x.1.now)) result (log_at bytes.now) }
{
    let rest = mark_of(bytes)?;
    let (count, rest) = byte_of(rest, 1, 8)?;
    let (threads, rest) = threads_of(alloc, count, rest)?;
    body_of(alloc, threads, rest)
}

/// The log of all bytes.
#[tactic(auto, unfolding(crate::specs::Reading::whole_at))]
pub(crate) fn whole_of(alloc: Global, bytes: &[u8]) -> Result<Log, Stop>
    ensures { Gives (λ log. log) result (whole_at bytes.now) }
{
    let (log, rest) = log_of(alloc, bytes)?;
    if !rest.is_empty() {
        return Err(Stop::Bad { left: rest.len() });
    }
    Ok(log)
}
