ghost use Rattle.std.specs.Prelude.{◌≡◌, ◌*◌, ◌^◌, ◌<◌, List, [], length, IfOk, IfSome};
ghost use Rattle.std.specs.Bool.{OnTrue, OnFalse};
ghost use Rattle.elf_image.specs.declared.write.Write.{Write};
ghost use Rattle.elf_image.specs.Memory.{Cells, opening_cells, cells_after, Stands, all_readable, all_writable, bytes_from, writes_of, bytes_of};
ghost use Rattle.guest_mem.specs.Accesses.{byte_of, number_at, may_amo};
ghost use Rattle.guest_mem.specs.Blocks.{cells_of};
ghost use Rattle.guest_mem.specs.Width.{size_of};

use crate::accesses::{all_readable, all_writable, get, load, store};
use crate::blocks::cell;
use crate::buffer::Buffer;
use crate::opening::blocks;
use crate::width::Width;
use elf_image::image::Image;
use odr_list::memory::Memory;
use std::alloc::Global;
use std::marker::Model;

/// The memory of a guest: the regions of an image and eight stacks, changed in place. Contracts see it as
/// its blocks, and through `cells_of` as the byte and the rights at each address. A store says what it did to
/// the memory before it; by the law `law::writes_chain` the memory is what all stores so far left. No call but
/// `load` takes memory, and none changes what may be read or written. Addresses wrap at 2^32.
#[derive(Debug, Drop)]
pub struct GuestMem {
    blocks: Vec<Buffer>,
}

impl Model for GuestMem {
    ghost use Rattle.std.specs.Prelude.{List, AllPairs};
    ghost use Rattle.guest_mem.specs.Blocks.{Block, AreApart};

    ghost Value = { List Block };

    ghost view = { λ memory. memory.blocks.items };

    ghost invariant = { λ memory. AllPairs AreApart memory.blocks.items };
}

impl GuestMem {
    /// The memory of an image before the first step.
    ///
    /// # Errors
    ///
    /// `Memory` alone.
    pub fn load(alloc: Global, image: &Image) -> Result<GuestMem, Memory>
        ensures { IfOk result (λ memory. Stands (opening_cells image.now) [] (cells_of memory)) }
    {
        image.laws();
        let blocks = blocks(alloc, image.regions())?;
        Ok(GuestMem { blocks })
    }

    /// The byte at an address: the newest one written there. None exactly outside all regions and stacks.
    pub fn byte(&self, address: u32) -> Option<u8>
        ensures byte { result ≡ byte_of (cells_of self.now) address }
        ensures newest { (before : Cells) (writes : List Write) → Stands before writes (cells_of self.now) → result ≡ byte_of (cells_after before writes) address }
    {
        let cell = cell(self.blocks.as_slice(), address)?;
        Some(cell.byte)
    }

    /// Whether `len` bytes from an address on may all be read.
    pub fn readable(&self, address: u32, len: u32) -> bool
        ensures { result ≡ all_readable (cells_of self.now) address len }
    {
        all_readable(self.blocks.as_slice(), address, len as usize)
    }

    /// Whether `len` bytes from an address on may all be written.
    pub fn writable(&self, address: u32, len: u32) -> bool
        ensures { result ≡ all_writable (cells_of self.now) address len }
    {
        all_writable(self.blocks.as_slice(), address, len as usize)
    }

    /// Whether an address is a multiple of four and its four bytes may be read and written.
    pub fn can_amo(&self, address: u32) -> bool
        ensures { result ≡ may_amo (cells_of self.now) address }
    {
        address % 4 == 0 && self.readable(address, 4) && self.writable(address, 4)
    }

    /// The number that the bytes at an address spell, the lowest first. None exactly where one of them may
    /// not be read.
    pub fn get(&self, address: u32, width: Width) -> Option<u32>
        ensures value { result ≡ number_at (cells_of self.now) address (size_of width) }
        ensures small { IfSome result (λ value. value < 2 ^ (8 * size_of width)) }
    {
        get(self.blocks.as_slice(), address, width)
    }

    /// Stores the low bytes of a value, the lowest first. False exactly where one of the bytes may not be
    /// written, and then nothing is.
    pub fn put(&mut self, address: u32, width: Width, value: u32) -> bool
        ensures allowed { result ≡ all_writable (cells_of self.old) address (size_of width) }
        ensures stored { OnTrue result (Stands (cells_of self.old) (writes_of address (bytes_of (size_of width) value) []) (cells_of self.new)) }
        ensures refused { OnFalse result (self.new ≡ self.old) }
    {
        let [a, b, c, d] = value.to_le_bytes();
        match width {
            Width::One => self.put_bytes(address, &[a]),
            Width::Two => self.put_bytes(address, &[a, b]),
            Width::Four => self.put_bytes(address, &[a, b, c, d]),
        }
    }

    /// Reads the bytes from an address on. False exactly where one of them may not be read, and then `into`
    /// is as it was.
    pub fn get_bytes(&self, address: u32, into: &mut [u8]) -> bool
        ensures allowed { result ≡ all_readable (cells_of self.now) address (length into.old) }
        ensures read { OnTrue result (into.new ≡ bytes_from (cells_of self.now) address (length into.old)) }
        ensures refused { OnFalse result (into.new ≡ into.old) }
    {
        load(self.blocks.as_slice(), address, into)
    }

    /// Stores bytes from an address on. False exactly where one of them may not be written, and then nothing
    /// is.
    pub fn put_bytes(&mut self, address: u32, bytes: &[u8]) -> bool
        ensures allowed { result ≡ all_writable (cells_of self.old) address (length bytes.now) }
        ensures stored { OnTrue result (Stands (cells_of self.old) (writes_of address bytes.now []) (cells_of self.new)) }
        ensures refused { OnFalse result (self.new ≡ self.old) }
    {
        store(self.blocks.as_mut_slice(), address, bytes)
    }
}
