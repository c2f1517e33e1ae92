ghost use Rattle.std.specs.Prelude.{◌≡◌, ◌+◌, ◌≤◌, All, IfOk, filter, length, map, nat_lt, sum_by};
ghost use Rattle.std.specs.List.{list_any};
ghost use Rattle.elf_image.specs.Segments.{is_load, region_of};
ghost use Rattle.elf_image.specs.Checks.{is_dynamic, is_out_of_range, is_writable_code, shares_address, overlap};
ghost use Rattle.elf_image.specs.Table.{IsHeld};

use crate::header::ProgramHeader;
use crate::region::Region;
use odr_list::bytes::Bytes;
use odr_list::memory::Memory;
use std::alloc::Global;

// The number of bytes that all segments may have in memory.
const MOST_BYTES: u64 = 1_048_576;

/// The segments that are loaded.
pub fn loads(alloc: Global, headers: &[ProgramHeader]) -> Result<Vec<ProgramHeader>, Memory>
    ensures { IfOk result (λ loads. loads.items ≡ filter is_load headers.now) }
{
    let loads = headers
        .iter()
        .copied()
        .filter(|header| header.is_load())
        .collect(alloc)?;
    Ok(loads)
}

/// Whether a segment has what dynamic linking needs.
pub fn any_dynamic(headers: &[ProgramHeader]) -> bool
    ensures { result ≡ list_any is_dynamic headers.now }
{
    headers.iter().any(|header| header.is_dynamic())
}

/// Whether a segment to be loaded passes the file or the guest's memory.
pub fn any_out_of_range(headers: &[ProgramHeader], size: usize) -> bool
    ensures { result ≡ list_any (is_out_of_range size) headers.now }
{
    headers.iter().any(|header| header.is_out_of_range(size))
}

/// Whether a segment may be both written and executed.
pub fn any_writable_code(loads: &[ProgramHeader]) -> bool
    ensures { result ≡ list_any is_writable_code loads.now }
{
    loads.iter().any(|load| load.is_writable_code())
}

fn shares_with_any(load: &ProgramHeader, others: &[ProgramHeader]) -> bool
    ensures { result ≡ list_any (shares_address load.now) others.now }
{
    others.iter().any(|other| load.shares_address(other))
}

/// Whether two segments share an address.
pub fn overlap(loads: &[ProgramHeader]) -> bool
    ensures { result ≡ overlap loads.now }
{
    for (index, load) in loads.iter().enumerate() {
        if shares_with_any(load, &loads[index + 1..]) {
            return true;
        }
    }
    false
}

/// Whether the segments have more than 1,048,576 bytes in memory.
pub fn is_too_large(loads: &[ProgramHeader]) -> bool
    requires { length loads.now ≤ 16 }
    ensures { result ≡ nat_lt 1048576 (sum_by (λ load. load.p_memsz) loads.now) }
{
    let total: u64 = loads.iter().map(|load| u64::from(load.p_memsz)).sum();
    total > MOST_BYTES
}

/// The region of a segment: its bytes in the file, and zeros.
fn region(alloc: Global, file: &[u8], load: &ProgramHeader) -> Result<Region, Memory>
    requires within { load.now.p_offset + load.now.p_filesz ≤ length file.now }
    requires fits { load.now.p_filesz ≤ load.now.p_memsz }
    ensures { IfOk result (λ region. region ≡ region_of file.now load.now) }
{
    let start = load.p_offset as usize;
    let end = start + load.p_filesz as usize;
    let size = load.p_memsz as usize;
    let mut bytes = Vec::from_slice(alloc, &file[start..end])?;
    bytes.resize(size, 0)?;
    Ok(Region {
        start: load.p_vaddr,
        perm: load.rights(),
        bytes: Bytes::of(bytes),
    })
}

/// The regions of the segments that are loaded.
pub fn regions(alloc: Global, file: &[u8], loads: &[ProgramHeader]) -> Result<Vec<Region>, Memory>
    requires { All (IsHeld (length file.now)) loads.now }
    ensures { IfOk result (λ regions. regions.items ≡ map (region_of file.now) loads.now) }
{
    let mut regions = Vec::new(alloc);
    for load in loads {
        regions.push(region(alloc, file, load)?)?;
    }
    Ok(regions)
}
