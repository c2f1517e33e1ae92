ghost use Rattle.std.specs.Prelude.{◌≡◌, ◌≤◌, All, OnOk, length};
ghost use Rattle.std.specs.Result.{result_err};
ghost use Rattle.elf_image.specs.Fields.{headers_of};
ghost use Rattle.elf_image.specs.Segments.{loads_of};
ghost use Rattle.elf_image.specs.Checks.{has_other_class, has_bad_table, header_checks, segment_checks, first_of};
ghost use Rattle.elf_image.specs.Table.{HasTable, IsHeld};

use crate::fault::Check;
use crate::field::{
    E_FLAGS, E_MACHINE, E_PHENTSIZE, E_PHNUM, E_PHOFF, E_TYPE, E_VERSION, EF_RISCV_RVC, EI_CLASS,
    EI_DATA, EI_VERSION, EM_RISCV, ET_EXEC, PN_XNUM, u16_at, u32_at,
};
use crate::header::ProgramHeader;
use crate::segments::{any_dynamic, any_out_of_range, any_writable_code, is_too_large, overlap};

// The bytes that every ELF file begins with.
const MAGIC: [u8; 4] = [0x7f, 0x45, 0x4c, 0x46];

// The number of segments that may be loaded.
const MOST_LOADS: usize = 16;

fn has_other_class(file: &[u8]) -> bool
    requires { 52 ≤ length file.now }
    ensures { result ≡ has_other_class file.now }
{
    file[EI_CLASS] != 1
        || file[EI_DATA] != 1
        || file[EI_VERSION] != 1
        || u32_at(file, E_VERSION) != 1
}

fn has_bad_table(file: &[u8]) -> bool
    requires { 52 ≤ length file.now }
    ensures { result ≡ has_bad_table file.now }
{
    let count = u16_at(file, E_PHNUM);
    let end = u64::from(u32_at(file, E_PHOFF)) + 32 * u64::from(count);
    count == PN_XNUM || count != 0 && (u16_at(file, E_PHENTSIZE) != 32 || (file.len() as u64) < end)
}

/// The checks on the file header: the first of them that fails.
#[tactic(auto, unfolding(crate::specs::Checks::first_of))]
pub fn check_header(file: &[u8]) -> Result<(), Check>
    ensures first { result_err result ≡ first_of header_checks file.now }
    ensures table { OnOk result (HasTable file.now) }
{
    if file.len() < 52 {
        return Err(Check::Short);
    }
    if !file.starts_with(&MAGIC) {
        return Err(Check::Magic);
    }
    if has_other_class(file) {
        return Err(Check::Class);
    }
    if u16_at(file, E_TYPE) != ET_EXEC {
        return Err(Check::Kind);
    }
    if u16_at(file, E_MACHINE) != EM_RISCV {
        return Err(Check::Machine);
    }
    if u32_at(file, E_FLAGS) & EF_RISCV_RVC != 0 {
        return Err(Check::Compressed);
    }
    if has_bad_table(file) {
        return Err(Check::Headers);
    }
    Ok(())
}

/// The checks on the program headers: the first of them that fails.
#[tactic(auto, unfolding(crate::specs::Checks::first_of))]
pub fn check_segments(
    file: &[u8],
    headers: &[ProgramHeader],
    loads: &[ProgramHeader],
) -> Result<(), Check>
    requires headers { headers.now ≡ headers_of file.now }
    requires loads { loads.now ≡ loads_of file.now }
    ensures first { result_err result ≡ first_of segment_checks file.now }
    ensures held { OnOk result (All (IsHeld (length file.now)) loads.now) }
{
    if any_dynamic(headers) {
        return Err(Check::Dynamic);
    }
    if loads.is_empty() {
        return Err(Check::NoLoad);
    }
    if loads.len() > MOST_LOADS {
        return Err(Check::TooManyLoads);
    }
    if any_out_of_range(headers, file.len()) {
        return Err(Check::Range);
    }
    if any_writable_code(loads) {
        return Err(Check::WritableCode);
    }
    if overlap(loads) {
        return Err(Check::Overlap);
    }
    if is_too_large(loads) {
        return Err(Check::TooLarge);
    }
    Ok(())
}
