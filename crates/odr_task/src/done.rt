ghost use Rattle.std.specs.Prelude.{◌≡◌, IfOk};

use odr_list::bytes::Bytes;
use odr_list::memory::Memory;
use std::alloc::Global;

/// A file to be saved: its name and its bytes.
#[derive(Debug, Drop)]
pub struct NamedFile<'a> {
    pub name: &'a str,
    pub bytes: Bytes,
}

/// What a command comes to: its exit status, the file that it saves, if it saves one, and then the bytes that it
/// prints.
#[derive(Debug, Drop)]
pub struct Done<'a> {
    pub status: u8,
    pub file: Option<NamedFile<'a>>,
    pub printed: Bytes,
}

/// The bytes of a line.
pub fn line_bytes(alloc: Global, line: &str) -> Result<Bytes, Memory>
    ensures { IfOk result (λ bytes. bytes ≡ line.now) }
{
    Bytes::from_slice(alloc, line.as_bytes())
}
