ghost use Rattle.std.specs.Prelude.{◌≡◌, ◌+◌, ◌-◌, ◌≤◌, ◌<◌, ◌&&◌, AllPairs, Some, IfSome, IsTrue, length, nat_le, nat_lt, slice_index};
ghost use Rattle.std.specs.Option.{option_copied};
ghost use Rattle.elf_image.specs.Layout.{covers, region_at, code_byte, little_endian, fetch_of, AreApart};

use crate::region::Region;

/// Whether an address is in a region.
fn covers(region: &Region, address: u32) -> bool
    ensures { result ≡ covers region.now address }
{
    region.start <= address && ((address - region.start) as usize) < region.bytes.len()
}

/// The byte of a region at an address in it.
pub fn byte_at(region: &Region, address: u32) -> u8
    requires { IsTrue (covers region.now address) }
    ensures { result ≡ slice_index region.now.bytes (address - region.now.start) }
{
    region.bytes.as_slice()[(address - region.start) as usize]
}

/// The region that an address is in.
pub fn region_at(regions: &[Region], address: u32) -> Option<&Region>
    ensures found { option_copied result ≡ region_at regions.now address }
    ensures covered { IfSome result (λ region. IsTrue (covers region.now address)) }
{
    for region in regions {
        if covers(region, address) {
            return Some(region);
        }
    }
    None
}

/// The byte at an address, if it may be fetched as part of an instruction.
fn code_byte(regions: &[Region], address: u32) -> Option<u8>
    ensures { result ≡ code_byte (region_at regions.now address) address }
{
    let region = region_at(regions, address)?;
    if region.perm.x {
        Some(byte_at(region, address))
    } else {
        None
    }
}

/// The instruction word at an address.
pub fn fetch(regions: &[Region], pc: u32) -> Option<u32>
    ensures { result ≡ fetch_of (record { regions = regions.now; entry = pc }) pc }
{
    if pc % 4 != 0 {
        return None;
    }
    let first = code_byte(regions, pc)?;
    let second = code_byte(regions, pc + 1)?;
    let third = code_byte(regions, pc + 2)?;
    let fourth = code_byte(regions, pc + 3)?;
    Some(u32::from_le_bytes([first, second, third, fourth]))
}

/// Whether a region that has the first byte of a word has the last one too.
fn has_word(region: &Region, pc: u32) -> bool
    requires { IsTrue (covers region.now pc) }
    ensures { result ≡ covers region.now (pc + 3) }
{
    (pc - region.start) as usize + 3 < region.bytes.len()
}

/// The instruction word at an address of a region that has its first byte and its last.
fn word_in(region: &Region, pc: u32) -> Option<u32>
    requires first { IsTrue (covers region.now pc) }
    requires last { IsTrue (covers region.now (pc + 3)) }
    ensures { result ≡ little_endian (code_byte (Some region.now) pc) (code_byte (Some region.now) (pc + 1)) (code_byte (Some region.now) (pc + 2)) (code_byte (Some region.now) (pc + 3)) }
{
    if !region.perm.x {
        return None;
    }
    let bytes = region.bytes.as_slice();
    let at = (pc - region.start) as usize;
    let word = [bytes[at], bytes[at + 1], bytes[at + 2], bytes[at + 3]];
    Some(u32::from_le_bytes(word))
}

/// The instruction word at an address, of regions of which no two share one. One look-up serves a word that
/// one region has whole.
#[tactic(auto, using(crate::proofs::Apart::fetch_whole))]
pub fn fetch_apart(regions: &[Region], pc: u32) -> Option<u32>
    requires { AllPairs AreApart regions.now }
    ensures { result ≡ fetch_of (record { regions = regions.now; entry = pc }) pc }
{
    if pc % 4 != 0 {
        return None;
    }
    let region = region_at(regions, pc)?;
    if has_word(region, pc) {
        word_in(region, pc)
    } else {
        fetch(regions, pc)
    }
}
