ghost use Rattle.std.specs.Prelude.{◌≡◌, ◌≤◌, ◌^◌, ◌<◌, ◌*◌, length, option_map, IfOk};
ghost use Rattle.elf_image.specs.Memory.{opening_cells, cells_after, next, is_readable, is_writable, byte_in, all_readable, all_writable, bytes_from, load_bytes, number_of, bytes_of, writes_of};
ghost use Rattle.rv_model.specs.Step.{reach_of};
ghost use Rattle.plain_machine.specs.Met.{HasCount};

use elf_image::cell::Cell;
use elf_image::image::Image;
use elf_image::write::Write;
use odr_list::bytes::Bytes;
use odr_list::memory::Memory;
use rv_model::hearing::{Access, Reach};
use rv_model::writes::Writes;
use std::alloc::Global;

/// The byte at an address after these writes, with its rights; none outside all regions and stacks.
pub fn cell(image: &Image, writes: &Writes, address: u32) -> Option<Cell>
    ensures { result ≡ cells_after (opening_cells image.now) writes.now address }
{
    let opening = image.opening(address)?;
    match writes.newest(address) {
        None => Some(opening),
        Some(byte) => Some(Cell { byte, ..opening }),
    }
}

fn is_readable(cell: Option<Cell>) -> bool
    ensures { result ≡ is_readable cell }
{
    cell.is_some_and(|cell| cell.readable)
}

fn is_writable(cell: Option<Cell>) -> bool
    ensures { result ≡ is_writable cell }
{
    cell.is_some_and(|cell| cell.writable)
}

pub fn byte_in(cell: Option<Cell>) -> u8
    ensures { result ≡ byte_in cell }
{
    match cell {
        None => 0,
        Some(cell) => cell.byte,
    }
}

/// Whether `count` bytes from an address on may all be read.
#[tactic(auto, using(crate::proofs::Spans::spans))]
pub fn all_readable(image: &Image, writes: &Writes, address: u32, count: u32) -> bool
    ensures { result ≡ all_readable (cells_after (opening_cells image.now) writes.now) address count }
{
    let mut at = address;
    for _done in 0..count {
        if !is_readable(cell(image, writes, at)) {
            return false;
        }
        at = at.wrapping_add(1);
    }
    true
}

/// Whether `count` bytes from an address on may all be written.
#[tactic(auto, using(crate::proofs::Spans::spans))]
pub fn all_writable(image: &Image, writes: &Writes, address: u32, count: u32) -> bool
    ensures { result ≡ all_writable (cells_after (opening_cells image.now) writes.now) address count }
{
    let mut at = address;
    for _done in 0..count {
        if !is_writable(cell(image, writes, at)) {
            return false;
        }
        at = at.wrapping_add(1);
    }
    true
}

/// The `count` bytes from an address on.
#[tactic(auto, using(crate::proofs::Spans::spans))]
fn bytes_from(
    alloc: Global,
    image: &Image,
    writes: &Writes,
    address: u32,
    count: u32,
) -> Result<Bytes, Memory>
    ensures { IfOk result (λ bytes. bytes ≡ bytes_from (cells_after (opening_cells image.now) writes.now) address count) }
{
    let mut bytes = Bytes::new(alloc);
    let mut at = address;
    for _done in 0..count {
        bytes.push(byte_in(cell(image, writes, at)))?;
        at = at.wrapping_add(1);
    }
    Ok(bytes)
}

/// What an access meets in the memory after these writes.
#[tactic(auto, using(crate::proofs::Spans::lengths))]
pub fn reach(alloc: Global, image: &Image, writes: &Writes, access: Access) -> Result<Reach, Memory>
    ensures value { IfOk result (λ reach. reach ≡ reach_of (cells_after (opening_cells image.now) writes.now) access) }
    ensures count { IfOk result (HasCount access.count) }
{
    let writable = all_writable(image, writes, access.address, access.count);
    if !all_readable(image, writes, access.address, access.count) {
        return Ok(Reach {
            bytes: None,
            writable,
        });
    }
    let bytes = bytes_from(alloc, image, writes, access.address, access.count)?;
    Ok(Reach {
        bytes: Some(bytes),
        writable,
    })
}

/// The number that at most four bytes spell, the lowest first.
pub fn number_of(bytes: &[u8]) -> u32
    requires { length bytes.now ≤ 4 }
    ensures value { result ≡ number_of bytes.now }
    ensures small { result < 2 ^ (8 * length bytes.now) }
{
    match bytes {
        [] => 0,
        [a] => u32::from(*a),
        [a, b] => u32::from(*a) + 0x100 * u32::from(*b),
        [a, b, c] => u32::from(*a) + 0x100 * u32::from(*b) + 0x1_0000 * u32::from(*c),
        [a, b, c, d] => u32::from_le_bytes([*a, *b, *c, *d]),
        _ => unreachable!(),
    }
}
