ghost use Rattle.std.specs.Prelude.{◌≡◌, IfOk, Some, string_bytes};
ghost use Rattle.odr_task.specs.Files.{Reads};
ghost use Rattle.odr_task.specs.Done.{Makes, Prepared};
ghost use Rattle.odr_top.specs.Asm.{size_line, assembled, asm_owes};

use crate::load::load_source;
use odr_io::files::Files;
use odr_list::bytes::Bytes;
use odr_list::memory::Memory;
use odr_task::done::{Done, NamedFile, line_bytes};
use odr_task::refusal::Stop;
use std::alloc::Global;

/// The line of an assembled program.
fn size_line(alloc: Global, size: usize) -> Result<String, Memory>
    ensures { IfOk result (λ line. string_bytes line ≡ size_line size) }
{
    Ok(format!(in alloc; "{size} bytes\n")?)
}

/// What an assembled program is left as.
fn assembled<'a>(alloc: Global, bytes: Bytes, elf: &'a str) -> Result<Done<'a>, Memory>
    ensures { IfOk result (Makes (assembled bytes) (Some elf.now)) }
{
    let line = size_line(alloc, bytes.len())?;
    Ok(Done {
        status: 0,
        printed: line_bytes(alloc, line.as_str())?,
        file: Some(NamedFile { name: elf, bytes }),
    })
}

/// Assembles a text to a program.
pub fn asm<'a, F: Files>(
    alloc: Global,
    files: &mut F,
    text: &'a str,
    elf: &'a str,
) -> Result<Done<'a>, Stop<'a>>
    ensures { Reads (Prepared (asm_owes (F.held files.old) text.now) (Some elf.now)) (asm_owes (F.held files.old) text.now)
        result (F.held files.old) (F.held files.new) (F.faults files.old) (F.faults files.new) }
{
    let bytes = load_source(alloc, files, text)?;
    let done = assembled(alloc, bytes, elf)?;
    Ok(done)
}
