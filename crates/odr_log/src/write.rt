ghost use Rattle.std.specs.Prelude.{◌≡◌, ◌<◌, ◌^◌, [], ◌∷◌, ◌++◌, length, All, OnOk, IfOk};
ghost use Rattle.std.specs.List.{flat_map};
ghost use Rattle.byteorder.specs.Endian.{little_bytes};
ghost use Rattle.odr_log.specs.Grammar.{text_bytes, flag_bytes, item_bytes, thread_bytes, kind_of, child_of, fields_of, record_bytes, cause_code, end_bytes, log_bytes, IsThread, IsCall, IsRecord, IsValid};

use crate::log::{Call, CallRec, Cause, End, Log, PathItem, ThreadLog};
use byteorder::{ByteOrder, LittleEndian};
use odr_list::memory::Memory;
use std::alloc::Global;

fn put_byte(out: &mut Vec<u8>, byte: u8) -> Result<(), Memory>
    ensures { OnOk result (out.new.items ≡ out.old.items ++ byte ∷ []) }
{
    out.push(byte)?;
    Ok(())
}

fn put_u16(out: &mut Vec<u8>, number: u16) -> Result<(), Memory>
    ensures { OnOk result (out.new.items ≡ out.old.items ++ little_bytes 2 number) }
{
    let mut bytes = [0u8; 2];
    LittleEndian::write_u16(&mut bytes, number);
    out.extend_from_slice(&bytes)?;
    Ok(())
}

fn put_u32(out: &mut Vec<u8>, number: u32) -> Result<(), Memory>
    ensures { OnOk result (out.new.items ≡ out.old.items ++ little_bytes 4 number) }
{
    let mut bytes = [0u8; 4];
    LittleEndian::write_u32(&mut bytes, number);
    out.extend_from_slice(&bytes)?;
    Ok(())
}

fn put_text(out: &mut Vec<u8>, text: &[u8]) -> Result<(), Memory>
    requires { length text.now < 2 ^ 16 }
    ensures { OnOk result (out.new.items ≡ out.old.items ++ text_bytes text.now) }
{
    put_u16(out, text.len() as u16)?;
    out.extend_from_slice(text)?;
    Ok(())
}

fn put_flag(out: &mut Vec<u8>, flag: bool) -> Result<(), Memory>
    ensures { OnOk result (out.new.items ≡ out.old.items ++ flag_bytes flag) }
{
    put_byte(out, u8::from(flag))
}

fn put_item(out: &mut Vec<u8>, item: &PathItem) -> Result<(), Memory>
    ensures { OnOk result (out.new.items ≡ out.old.items ++ item_bytes item.now) }
{
    match item {
        PathItem::Branch(taken) => put_flag(out, *taken),
        PathItem::Jump(target) => {
            put_byte(out, 2)?;
            put_u32(out, *target)
        }
    }
}

fn put_path(out: &mut Vec<u8>, path: &[PathItem]) -> Result<(), Memory>
    ensures { OnOk result (out.new.items ≡ out.old.items ++ flat_map item_bytes path.now) }
{
    for item in path {
        put_item(out, item)?;
    }
    Ok(())
}

fn put_thread(out: &mut Vec<u8>, thread: &ThreadLog) -> Result<(), Memory>
    requires { IsThread thread.now }
    ensures { OnOk result (out.new.items ≡ out.old.items ++ thread_bytes thread.now) }
{
    put_u32(out, thread.steps)?;
    put_u32(out, thread.path.len() as u32)?;
    put_path(out, thread.path.as_slice())
}

fn put_threads(out: &mut Vec<u8>, threads: &[ThreadLog]) -> Result<(), Memory>
    requires { All IsThread threads.now }
    ensures { OnOk result (out.new.items ≡ out.old.items ++ flat_map thread_bytes threads.now) }
{
    for thread in threads {
        put_thread(out, thread)?;
    }
    Ok(())
}

fn kind(call: &Call) -> u8
    ensures { result ≡ kind_of call.now }
{
    match call {
        Call::Exit { .. } => 0x01,
        Call::EndThread => 0x02,
        Call::Spawn { .. } => 0x03,
        Call::Join { .. } => 0x04,
        Call::Lock { .. } => 0x05,
        Call::Unlock { .. } => 0x06,
        Call::TryLock { .. } => 0x07,
        Call::Write { .. } => 0x08,
        Call::Read { .. } => 0x09,
        Call::SelfId => 0x0a,
        Call::Yield => 0x0b,
        Call::WriteBad => 0x0c,
        Call::ReadBad => 0x0d,
        Call::Unknown { .. } => 0x0e,
    }
}

/// A number and a flag.
fn put_flagged(out: &mut Vec<u8>, number: u32, flag: bool) -> Result<(), Memory>
    ensures { OnOk result (out.new.items ≡ out.old.items ++ (little_bytes 4 number ++ flag_bytes flag)) }
{
    put_u32(out, number)?;
    put_flag(out, flag)
}

fn put_fields(out: &mut Vec<u8>, call: &Call) -> Result<(), Memory>
    requires { IsCall call.now }
    ensures { OnOk result (out.new.items ≡ out.old.items ++ fields_of call.now) }
{
    match call {
        Call::Exit { code } => put_u32(out, *code),
        Call::Unknown { number } => put_u32(out, *number),
        Call::Spawn { entry, child } => {
            put_u32(out, *entry)?;
            put_byte(out, child.unwrap_or(u8::MAX))
        }
        Call::Join { target, ok } => put_flagged(out, *target, *ok),
        Call::Lock { mutex, ok } => put_flagged(out, *mutex, *ok),
        Call::Unlock { mutex, ok } => put_flagged(out, *mutex, *ok),
        Call::TryLock { mutex, got } => put_flagged(out, *mutex, *got),
        Call::Write { bytes } => put_text(out, bytes.as_slice()),
        Call::Read { want, bytes } => {
            put_u32(out, *want)?;
            put_text(out, bytes.as_slice())
        }
        Call::EndThread | Call::SelfId | Call::Yield | Call::WriteBad | Call::ReadBad => Ok(()),
    }
}

fn put_record(out: &mut Vec<u8>, made: &CallRec) -> Result<(), Memory>
    requires { IsCall made.now.call }
    ensures { OnOk result (out.new.items ≡ out.old.items ++ record_bytes made.now) }
{
    put_byte(out, made.tid)?;
    put_u32(out, made.at)?;
    put_byte(out, kind(&made.call))?;
    put_fields(out, &made.call)
}

fn put_calls(out: &mut Vec<u8>, calls: &[CallRec]) -> Result<(), Memory>
    requires { All (λ made. IsCall made.call) calls.now }
    ensures { OnOk result (out.new.items ≡ out.old.items ++ flat_map record_bytes calls.now) }
{
    for made in calls {
        put_record(out, made)?;
    }
    Ok(())
}

fn code(cause: Cause) -> u8
    ensures { result ≡ cause_code cause }
{
    match cause {
        Cause::FetchFault => 1,
        Cause::Illegal => 2,
        Cause::Misaligned => 3,
        Cause::LoadFault => 4,
        Cause::StoreFault => 5,
        Cause::AmoFault => 6,
        Cause::Breakpoint => 7,
    }
}

fn put_end(out: &mut Vec<u8>, end: &End) -> Result<(), Memory>
    ensures { OnOk result (out.new.items ≡ out.old.items ++ end_bytes end.now) }
{
    match end {
        End::Cut => put_byte(out, 0),
        End::Exited { tid, code } => {
            put_byte(out, 1)?;
            put_byte(out, *tid)?;
            put_u32(out, *code)
        }
        End::Faulted { tid, cause } => {
            put_byte(out, 2)?;
            put_byte(out, *tid)?;
            put_byte(out, code(*cause))
        }
        End::AllDone => put_byte(out, 3),
    }
}

/// The bytes of a valid log.
#[tactic(auto, unfolding(crate::specs::Grammar::log_bytes))]
pub fn write_log(alloc: Global, log: &Log) -> Result<Vec<u8>, Memory>
    requires { IsValid log.now }
    ensures { IfOk result (λ bytes. bytes.items ≡ log_bytes log.now) }
{
    let mut out = Vec::new(alloc);
    out.extend_from_slice(b"ODRL")?;
    put_byte(&mut out, log.version)?;
    put_byte(&mut out, log.threads.len() as u8)?;
    put_threads(&mut out, log.threads.as_slice())?;
    put_u32(&mut out, log.calls.len() as u32)?;
    put_calls(&mut out, log.calls.as_slice())?;
    put_end(&mut out, &log.end)?;
    Ok(out)
}
