//! What a walk is given.

ghost use Rattle.std.specs.Prelude.{◌≡◌, ◌<◌, ◌^◌, [], length, map, slice_index_or, IfOk};
ghost use Rattle.std.specs.List.{range_with_len};
ghost use Rattle.plain_walk.specs.Data.{byte_of, supplied_at, nothing_supplied};

use odr_list::bytes::Bytes;
use odr_list::list::List;
use odr_list::memory::Memory;
use odr_log::log::Pos;
use std::alloc::Global;

/// What is given for one step: the bytes that it reads, and whether its store-conditional succeeds.
#[derive(Drop)]
pub struct Supplied {
    pub bytes: Bytes,
    pub won: bool,
}

/// What is given for the steps of a thread.
fn row(rows: &[List<Supplied>], thread: u8) -> &[Supplied]
    ensures { result.now ≡ slice_index_or rows.now thread [] }
{
    match rows.get(thread as usize) {
        None => &[],
        Some(row) => row.as_slice(),
    }
}

fn bytes_in(row: &[Supplied], step: u32) -> &[u8]
    ensures { result.now ≡ (slice_index_or row.now step nothing_supplied).bytes }
{
    match row.get(step as usize) {
        None => &[],
        Some(supplied) => supplied.bytes.as_slice(),
    }
}

fn won_in(row: &[Supplied], step: u32) -> bool
    ensures { result ≡ (slice_index_or row.now step nothing_supplied).won }
{
    match row.get(step as usize) {
        None => false,
        Some(supplied) => supplied.won,
    }
}

/// The bytes that are given for a step.
pub fn bytes_at(rows: &[List<Supplied>], at: Pos) -> &[u8]
    ensures { result.now ≡ (supplied_at rows.now at.thread at.step).bytes }
{
    bytes_in(row(rows, at.thread), at.step)
}

/// Whether the store-conditional of a step is to succeed.
pub fn won_at(rows: &[List<Supplied>], at: Pos) -> bool
    ensures { result ≡ (supplied_at rows.now at.thread at.step).won }
{
    won_in(row(rows, at.thread), at.step)
}

/// A byte of a list, 0 past its end.
pub fn byte_of(bytes: &[u8], i: u32) -> u8
    ensures { result ≡ byte_of bytes.now i }
{
    match bytes.get(i as usize) {
        None => 0,
        Some(byte) => *byte,
    }
}

/// The first bytes of a list, with 0 past its end.
#[tactic(auto, using(crate::proofs::ByteLemmas::bytes))]
pub fn padded(alloc: Global, bytes: &[u8], count: u32) -> Result<Bytes, Memory>
    ensures value { IfOk result (λ first. first ≡ map (byte_of bytes.now) (range_with_len 0 count)) }
    ensures count { IfOk result (λ first. length first ≡ count) }
{
    let mut first = Bytes::new(alloc);
    for i in 0..count {
        first.push(byte_of(bytes, i))?;
    }
    Ok(first)
}
