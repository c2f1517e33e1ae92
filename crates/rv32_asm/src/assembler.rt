ghost use Rattle.std.specs.Prelude.{◌≡◌, ◌≤◌, ◌||◌, false, nat_lt, IfOk, IfErr};
ghost use Rattle.rv32_asm.specs.Draft.{most_bytes};
ghost use Rattle.rv32_asm.specs.File.{AsmFile, IsRefused};

use crate::draft::{MOST_BYTES, read_draft};
use crate::elf::file;
use crate::emit::text_part;
use crate::fault::AsmFault;
use std::alloc::Global;

/// The ELF file of an assembly text, or its fault: that of the least line at fault; where there is none, the line
/// behind the last for a text without an instruction, and then a part that is too large.
pub fn assemble(alloc: Global, text: &[u8]) -> Result<Vec<u8>, AsmFault>
    ensures file { IfOk result (λ file. AsmFile text.now file.items) }
    ensures refused { IfErr result (IsRefused text.now) }
{
    let draft = read_draft(alloc, text)?;
    let part = text_part(alloc, &draft)?;
    let code = part.as_slice();
    if code.is_empty() {
        return Err(AsmFault::BadLine {
            line: draft.lines + 1,
        });
    }
    if is_too_large(code.len(), draft.stored_len) {
        return Err(AsmFault::TooLarge);
    }
    Ok(file(alloc, code, draft.stored.as_slice())?)
}

/// Whether one of the parts passes its limit.
fn is_too_large(text_len: usize, stored_len: u64) -> bool
    ensures value { result ≡ (nat_lt most_bytes text_len || nat_lt most_bytes stored_len) }
    ensures text { result ≡ false → text_len ≤ 65536 }
    ensures stored { result ≡ false → stored_len ≤ 65536 }
{
    text_len as u64 > MOST_BYTES || stored_len > MOST_BYTES
}
