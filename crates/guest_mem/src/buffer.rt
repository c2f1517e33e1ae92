ghost use Rattle.std.specs.Prelude.{◌≡◌, ◌+◌, ◌-◌, ◌^◌, ◌<◌, ◌≤◌, [], drop, length, IfOk, IsTrue, if◌then◌else◌};
ghost use Rattle.guest_mem.specs.Blocks.{covers, cell_in, written};
ghost use Rattle.guest_mem.specs.Opening.{block_of, zero_block};

use elf_image::cell::Cell;
use elf_image::region::Region;
use odr_list::memory::Memory;
use std::alloc::Global;
use std::marker::Model;

/// Bytes from an address on, all with the same rights. Contracts see them as a `Block`.
#[derive(Debug, Drop)]
pub struct Buffer {
    start: u32,
    readable: bool,
    writable: bool,
    bytes: Vec<u8>,
}

impl Model for Buffer {
    ghost use Rattle.std.specs.Prelude.{◌+◌, ◌^◌, ◌<◌, length};
    ghost use Rattle.guest_mem.specs.Blocks.{Block};

    ghost Value = { Block };

    ghost view = { λ b. record { start = b.start; readable = b.readable; writable = b.writable; bytes = b.bytes.items } };

    ghost invariant = { λ b. b.start + length b.bytes.items < 2 ^ 32 };
}

impl Buffer {
    /// A copy of a region.
    pub fn of_region(alloc: Global, region: &Region) -> Result<Buffer, Memory>
        requires { region.now.start + length region.now.bytes < 2 ^ 32 }
        ensures { IfOk result (λ block. block ≡ block_of region.now) }
    {
        let bytes = Vec::from_slice(alloc, region.bytes.as_slice())?;
        Ok(Buffer {
            start: region.start,
            readable: region.perm.r,
            writable: region.perm.w,
            bytes,
        })
    }

    /// Zeros that may be read and written.
    #[tactic(auto, unfolding(crate::specs::Opening::zero_block))]
    pub fn zeros(alloc: Global, start: u32, size: u32) -> Result<Buffer, Memory>
        requires { start + size < 2 ^ 32 }
        ensures { IfOk result (λ block. block ≡ zero_block start size) }
    {
        let bytes = vec![in alloc; 0; size as usize]?;
        Ok(Buffer {
            start,
            readable: true,
            writable: true,
            bytes,
        })
    }

    /// Whether an address is in the block.
    pub fn covers(&self, address: u32) -> bool
        ensures { result ≡ covers self.now address }
    {
        self.start <= address && ((address - self.start) as usize) < self.bytes.len()
    }

    /// The byte at an address of the block, with its rights.
    pub fn cell(&self, address: u32) -> Cell
        requires { IsTrue (covers self.now address) }
        ensures { result ≡ cell_in self.now address }
    {
        Cell {
            byte: self.bytes[(address - self.start) as usize],
            readable: self.readable,
            writable: self.writable,
        }
    }

    /// The bytes that may be read from an address on to the end of the block.
    pub fn readable_from(&self, address: u32) -> &[u8]
        requires { IsTrue (covers self.now address) }
        ensures bytes { result.now ≡ (if self.now.readable then drop (address - self.now.start) self.now.bytes else []) }
        ensures below { self.now.start + length self.now.bytes < 2 ^ 32 }
    {
        if self.readable {
            &self.bytes[(address - self.start) as usize..]
        } else {
            &[]
        }
    }

    /// How many bytes may be written from an address on to the end of the block.
    pub fn writable_from(&self, address: u32) -> usize
        requires { IsTrue (covers self.now address) }
        ensures count { result ≡ (if self.now.writable then self.now.start + length self.now.bytes - address else 0) }
        ensures below { self.now.start + length self.now.bytes < 2 ^ 32 }
    {
        if self.writable {
            self.bytes.len() - (address - self.start) as usize
        } else {
            0
        }
    }

    /// Writes bytes from an address on.
    pub fn write(&mut self, address: u32, bytes: &[u8])
        requires from { self.old.start ≤ address }
        requires to { address + length bytes.now ≤ self.old.start + length self.old.bytes }
        ensures written { self.new ≡ written self.old address bytes.now }
        ensures below { self.old.start + length self.old.bytes < 2 ^ 32 }
    {
        let start = (address - self.start) as usize;
        let end = start + bytes.len();
        self.bytes[start..end].copy_from_slice(bytes);
    }
}
