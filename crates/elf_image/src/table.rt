ghost use Rattle.std.specs.Prelude.{◌≡◌, IfOk};
ghost use Rattle.elf_image.specs.Fields.{headers_of};
ghost use Rattle.elf_image.specs.Table.{HasTable};

use crate::field::{E_PHNUM, E_PHOFF, u16_at, u32_at};
use crate::header::ProgramHeader;
use odr_list::memory::Memory;
use std::alloc::Global;

/// The file's table of program headers.
#[tactic(auto, using(crate::proofs::HeaderLemmas::table))]
pub fn program_headers(alloc: Global, file: &[u8]) -> Result<Vec<ProgramHeader>, Memory>
    requires { HasTable file.now }
    ensures { IfOk result (λ headers. headers.items ≡ headers_of file.now) }
{
    let first = u32_at(file, E_PHOFF) as usize;
    let count = usize::from(u16_at(file, E_PHNUM));
    let mut headers = Vec::new(alloc);
    for index in 0..count {
        headers.push(ProgramHeader::read(file, first + 32 * index))?;
    }
    Ok(headers)
}
