//! The ELF file of a program (System V ABI, "ELF Header" and "Program Header").
ghost use Rattle.std.specs.Prelude.{◌≡◌, ◌≤◌, ◌++◌, [], length, IfOk, OnOk, flat_map};
ghost use Rattle.rv32_asm.specs.File.{half, word, identification, file_header, program_header, file_of};

use odr_list::memory::Memory;
use std::alloc::Global;

fn put_half(out: &mut Vec<u8>, number: u16) -> Result<(), Memory>
    ensures { OnOk result (out.new.items ≡ out.old.items ++ half number) }
{
    out.extend_from_slice(&number.to_le_bytes())?;
    Ok(())
}

pub(crate) fn put_word(out: &mut Vec<u8>, number: u32) -> Result<(), Memory>
    ensures { OnOk result (out.new.items ≡ out.old.items ++ word number) }
{
    out.extend_from_slice(&number.to_le_bytes())?;
    Ok(())
}

/// 32 bits, little-endian, version 1.
fn put_identification(out: &mut Vec<u8>) -> Result<(), Memory>
    ensures { OnOk result (out.new.items ≡ out.old.items ++ identification) }
{
    out.extend_from_slice(&[0x7f, b'E', b'L', b'F', 1, 1, 1, 0, 0, 0, 0, 0, 0, 0, 0, 0])?;
    Ok(())
}

/// The header of an executable file for RISC-V, with so many program headers behind it.
fn put_file_header(out: &mut Vec<u8>, segments: u16) -> Result<(), Memory>
    ensures { OnOk result (out.new.items ≡ out.old.items ++ file_header segments) }
{
    put_identification(out)?;
    put_half(out, 2)?;
    put_half(out, 243)?;
    put_word(out, 1)?;
    put_word(out, 0x10000)?;
    put_word(out, 52)?;
    put_word(out, 0)?;
    put_word(out, 0)?;
    put_half(out, 52)?;
    put_half(out, 32)?;
    put_half(out, segments)?;
    put_half(out, 0)?;
    put_half(out, 0)?;
    put_half(out, 0)
}

fn put_words(out: &mut Vec<u8>, numbers: &[u32]) -> Result<(), Memory>
    ensures { OnOk result (out.new.items ≡ out.old.items ++ flat_map word numbers.now) }
{
    for number in numbers {
        put_word(out, *number)?;
    }
    Ok(())
}

/// A segment to be loaded: its offset in the file, address, size and rights.
fn put_program_header(
    out: &mut Vec<u8>,
    offset: u32,
    address: u32,
    size: u32,
    flags: u32,
) -> Result<(), Memory>
    ensures { OnOk result (out.new.items ≡ out.old.items ++ program_header offset address size flags) }
{
    put_words(out, &[1, offset, address, address, size, size, flags, 4])
}

/// The file of a text part and a data part.
pub(crate) fn file(alloc: Global, text: &[u8], stored: &[u8]) -> Result<Vec<u8>, Memory>
    requires text { length text.now ≤ 65536 }
    requires stored { length stored.now ≤ 65536 }
    ensures { IfOk result (λ file. file.items ≡ file_of text.now stored.now) }
{
    let mut out = Vec::new(alloc);
    let size = text.len() as u32;
    if stored.is_empty() {
        put_file_header(&mut out, 1)?;
        put_program_header(&mut out, 84, 0x10000, size, 5)?;
        out.extend_from_slice(text)?;
        return Ok(out);
    }
    put_file_header(&mut out, 2)?;
    put_program_header(&mut out, 116, 0x10000, size, 5)?;
    put_program_header(&mut out, 116 + size, 0x10_0000, stored.len() as u32, 6)?;
    out.extend_from_slice(text)?;
    out.extend_from_slice(stored)?;
    Ok(out)
}
