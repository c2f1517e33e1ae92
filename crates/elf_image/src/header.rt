ghost use Rattle.std.specs.Prelude.{◌≡◌, ◌+◌, ◌≤◌, length};
ghost use Rattle.elf_image.specs.Fields.{header_at};
ghost use Rattle.elf_image.specs.Segments.{is_load, rights_of};
ghost use Rattle.elf_image.specs.Checks.{is_dynamic, is_out_of_range, is_writable_code, shares_address};

use crate::field::{PT_DYNAMIC, PT_INTERP, PT_LOAD, u32_at};
use crate::region::Perm;

// The address of the first stack, which ends the memory of segments.
const STACKS: u64 = 0x7000_0000;

/// A program header (ELF32, "Program Header"), as far as it is read: a segment of the file and where it
/// stands in memory.
#[derive(Clone, Copy, Debug, PartialEq, Eq)]
pub struct ProgramHeader {
    /// What the segment is.
    pub p_type: u32,
    /// Where the segment begins in the file.
    pub p_offset: u32,
    /// The address of its first byte in memory.
    pub p_vaddr: u32,
    /// The number of its bytes in the file.
    pub p_filesz: u32,
    /// The number of its bytes in memory.
    pub p_memsz: u32,
    /// Its rights: bit 0 to execute, bit 1 to write, bit 2 to read.
    pub p_flags: u32,
}

impl ProgramHeader {
    /// The program header at a place of a file.
    pub fn read(file: &[u8], at: usize) -> ProgramHeader
        requires { at + 32 ≤ length file.now }
        ensures { result ≡ header_at file.now at }
    {
        ProgramHeader {
            p_type: u32_at(file, at),
            p_offset: u32_at(file, at + 4),
            p_vaddr: u32_at(file, at + 8),
            p_filesz: u32_at(file, at + 16),
            p_memsz: u32_at(file, at + 20),
            p_flags: u32_at(file, at + 24),
        }
    }

    /// Whether the segment is loaded: one of type 1 with bytes in memory.
    pub fn is_load(&self) -> bool
        ensures { result ≡ is_load self.now }
    {
        self.p_type == PT_LOAD && self.p_memsz > 0
    }

    /// What may be done with the segment's bytes.
    pub fn rights(&self) -> Perm
        ensures { result ≡ rights_of self.now.p_flags }
    {
        Perm {
            r: (self.p_flags >> 2) & 1 == 1,
            w: (self.p_flags >> 1) & 1 == 1,
            x: self.p_flags & 1 == 1,
        }
    }

    /// Whether the header is one of dynamic linking.
    pub fn is_dynamic(&self) -> bool
        ensures { result ≡ is_dynamic self.now }
    {
        self.p_type == PT_DYNAMIC || self.p_type == PT_INTERP
    }

    /// Whether a segment to be loaded has more bytes in the file than in memory, passes a file of this size,
    /// or passes the memory of segments.
    pub fn is_out_of_range(&self, size: usize) -> bool
        ensures { result ≡ is_out_of_range size self.now }
    {
        let file_end = u64::from(self.p_offset) + u64::from(self.p_filesz);
        let memory_end = u64::from(self.p_vaddr) + u64::from(self.p_memsz);
        self.p_type == PT_LOAD
            && (self.p_memsz < self.p_filesz || (size as u64) < file_end || STACKS < memory_end)
    }

    /// Whether the segment may be both written and executed.
    pub fn is_writable_code(&self) -> bool
        ensures { result ≡ is_writable_code self.now }
    {
        let rights = self.rights();
        rights.w && rights.x
    }

    /// Whether some address is in both segments.
    pub fn shares_address(&self, other: &ProgramHeader) -> bool
        ensures { result ≡ shares_address self.now other.now }
    {
        let end = u64::from(self.p_vaddr) + u64::from(self.p_memsz);
        let other_end = u64::from(other.p_vaddr) + u64::from(other.p_memsz);
        u64::from(self.p_vaddr) < other_end && u64::from(other.p_vaddr) < end
    }
}
