//! Accesses wherever their bytes stand, in blocks that share no address.
ghost use Rattle.std.specs.Prelude.{◌≡◌, ◌*◌, ◌^◌, ◌<◌, [], length, take, nat_le, IsTrue, IfSome, AllPairs, Some, None, if◌then◌else◌};
ghost use Rattle.std.specs.Bool.{OnTrue, OnFalse};
ghost use Rattle.elf_image.specs.Memory.{all_readable, all_writable, bytes_from, number_of, writes_of, Stands};
ghost use Rattle.guest_mem.specs.Accesses.{number_at};
ghost use Rattle.guest_mem.specs.Blocks.{cells_of, AreApart};
ghost use Rattle.guest_mem.specs.Width.{size_of};

use crate::blocks::{byte_at, readable_from, store_byte, store_in_one, writable_from};
use crate::buffer::Buffer;
use crate::width::Width;

/// Whether so many bytes from an address on may all be read.
#[tactic(auto, using(crate::proofs::Spans::spans))]
pub fn all_readable(blocks: &[Buffer], address: u32, count: usize) -> bool
    requires { AllPairs AreApart blocks.now }
    ensures { result ≡ all_readable (cells_of blocks.now) address count }
{
    let mut at = address;
    let mut left = count;
    let mut run = readable_from(blocks, at).len();
    while run < left {
        if run == 0 {
            return false;
        }
        at += run as u32;
        left -= run;
        run = readable_from(blocks, at).len();
    }
    true
}

/// Whether so many bytes from an address on may all be written.
#[tactic(auto, using(crate::proofs::Spans::spans))]
pub fn all_writable(blocks: &[Buffer], address: u32, count: usize) -> bool
    requires { AllPairs AreApart blocks.now }
    ensures { result ≡ all_writable (cells_of blocks.now) address count }
{
    let mut at = address;
    let mut left = count;
    let mut run = writable_from(blocks, at);
    while run < left {
        if run == 0 {
            return false;
        }
        at += run as u32;
        left -= run;
        run = writable_from(blocks, at);
    }
    true
}

/// Reads bytes one by one from an address on, wherever they stand.
#[tactic(auto, using(crate::proofs::Spans::spans))]
fn load_each(blocks: &[Buffer], address: u32, into: &mut [u8])
    requires { AllPairs AreApart blocks.now }
    ensures { into.new ≡ bytes_from (cells_of blocks.now) address (length into.old) }
{
    let mut at = address;
    for slot in into.iter_mut() {
        *slot = byte_at(blocks, at);
        at = at.wrapping_add(1);
    }
}

/// Reads the bytes from an address on; false where one may not be read, and then nothing is read.
#[tactic(auto, using(crate::proofs::Spans::spans))]
pub fn load(blocks: &[Buffer], address: u32, into: &mut [u8]) -> bool
    requires { AllPairs AreApart blocks.now }
    ensures allowed { result ≡ all_readable (cells_of blocks.now) address (length into.old) }
    ensures loaded { OnTrue result (into.new ≡ bytes_from (cells_of blocks.now) address (length into.old)) }
    ensures refused { OnFalse result (into.new ≡ into.old) }
{
    let here = readable_from(blocks, address);
    let count = into.len();
    if count <= here.len() {
        into.copy_from_slice(&here[..count]);
        return true;
    }
    if !all_readable(blocks, address, count) {
        return false;
    }
    load_each(blocks, address, into);
    true
}

/// The number that the first bytes spell, the lowest first; none where there are fewer.
fn number_in(bytes: &[u8], width: Width) -> Option<u32>
    ensures value { result ≡ (if nat_le (size_of width) (length bytes.now) then Some (number_of (take (size_of width) bytes.now)) else None) }
    ensures small { IfSome result (λ value. value < 2 ^ (8 * size_of width)) }
{
    match (width, bytes) {
        (Width::One, [a, ..]) => Some(u32::from(*a)),
        (Width::Two, [a, b, ..]) => Some(u32::from(*a) + 0x100 * u32::from(*b)),
        (Width::Four, [a, b, c, d, ..]) => Some(u32::from_le_bytes([*a, *b, *c, *d])),
        _ => None,
    }
}

/// The number at an address, wherever its bytes stand.
fn get_spanning(blocks: &[Buffer], address: u32, width: Width) -> Option<u32>
    requires { AllPairs AreApart blocks.now }
    ensures value { result ≡ number_at (cells_of blocks.now) address (size_of width) }
    ensures small { IfSome result (λ value. value < 2 ^ (8 * size_of width)) }
{
    let mut bytes = [0; 4];
    let part = &mut bytes[..width.size() as usize];
    if load(blocks, address, part) {
        number_in(part, width)
    } else {
        None
    }
}

/// The number at an address; none where one of its bytes may not be read.
pub fn get(blocks: &[Buffer], address: u32, width: Width) -> Option<u32>
    requires { AllPairs AreApart blocks.now }
    ensures value { result ≡ number_at (cells_of blocks.now) address (size_of width) }
    ensures small { IfSome result (λ value. value < 2 ^ (8 * size_of width)) }
{
    match number_in(readable_from(blocks, address), width) {
        Some(number) => Some(number),
        None => get_spanning(blocks, address, width),
    }
}

/// Writes bytes that may be written one by one from an address on, wherever they stand.
fn store_each(blocks: &mut [Buffer], address: u32, bytes: &[u8])
    requires apart { AllPairs AreApart blocks.old }
    requires writable { IsTrue (all_writable (cells_of blocks.old) address (length bytes.now)) }
    ensures apart { AllPairs AreApart blocks.new }
    ensures stored { Stands (cells_of blocks.old) (writes_of address bytes.now []) (cells_of blocks.new) }
{
    let mut at = address;
    for byte in bytes {
        store_byte(blocks, at, *byte);
        at = at.wrapping_add(1);
    }
}

/// Writes bytes from an address on; false where one may not be written, and then nothing is written.
pub fn store(blocks: &mut [Buffer], address: u32, bytes: &[u8]) -> bool
    requires { AllPairs AreApart blocks.old }
    ensures apart { AllPairs AreApart blocks.new }
    ensures allowed { result ≡ all_writable (cells_of blocks.old) address (length bytes.now) }
    ensures stored { OnTrue result (Stands (cells_of blocks.old) (writes_of address bytes.now []) (cells_of blocks.new)) }
    ensures refused { OnFalse result (blocks.new ≡ blocks.old) }
{
    if store_in_one(blocks, address, bytes) {
        return true;
    }
    if !all_writable(blocks, address, bytes.len()) {
        return false;
    }
    store_each(blocks, address, bytes);
    true
}
