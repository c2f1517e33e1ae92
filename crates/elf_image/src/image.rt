ghost use Rattle.std.specs.Prelude.{◌≡◌, IfOk, IfErr};
ghost use Rattle.elf_image.specs.Layout.{fetch_of, initial_of, perm_of, IsSound};
ghost use Rattle.elf_image.specs.Memory.{opening_cells};
ghost use Rattle.elf_image.specs.Checks.{IsImage};
ghost use Rattle.elf_image.specs.Fault.{IsFirstFault};

use crate::cell::Cell;
use crate::checks::{check_header, check_segments};
use crate::fault::{Check, ElfFault};
use crate::field::{E_ENTRY, u32_at};
use crate::lookup::{byte_at, fetch, fetch_apart, region_at};
use crate::region::{Perm, Region};
use crate::segments::{loads, regions};
use crate::stack::stack_cell;
use crate::table::program_headers;
use odr_list::list::List;
use odr_list::memory::Memory;
use std::alloc::Global;
use std::marker::Model;

/// The image of a program: its regions and the address of its first instruction. Contracts see it as a
/// `Layout`. Every image can be run: there is an instruction word at its entry. Its regions, at most 16 with
/// at most 1,048,576 bytes in all, have bytes, stand apart from each other and below the stacks, and what can
/// be executed can't be written.
#[derive(Debug, Drop)]
pub struct Image {
    regions: List<Region>,
    entry: u32,
}

impl Model for Image {
    ghost use Rattle.elf_image.specs.Layout.{Layout, IsSound};

    ghost Value = { Layout };

    ghost view = { λ image. record { regions = image.regions; entry = image.entry } };

    ghost invariant = { λ image. IsSound (record { regions = image.regions; entry = image.entry }) };
}

impl Image {
    /// The image of an ELF32 file.
    ///
    /// # Errors
    ///
    /// The first check that the file fails, or `Memory`.
    pub fn read(alloc: Global, bytes: &[u8]) -> Result<Image, ElfFault>
        ensures image { IfOk result (IsImage bytes.now) }
        ensures fault { IfErr result (IsFirstFault bytes.now) }
    {
        check_header(bytes)?;
        let headers = program_headers(alloc, bytes)?;
        let loads = loads(alloc, headers.as_slice())?;
        check_segments(bytes, headers.as_slice(), loads.as_slice())?;
        let regions = regions(alloc, bytes, loads.as_slice())?;
        let entry = u32_at(bytes, E_ENTRY);
        if fetch(regions.as_slice(), entry).is_none() {
            return Err(ElfFault::from(Check::EntryOutside));
        }
        Ok(Image {
            regions: List::of(regions),
            entry,
        })
    }

    /// What every image keeps.
    pub fn laws(&self)
        ensures { IsSound self.now }
    {
        let _entry = &self.entry;
    }

    /// The regions, in the order of their headers in the file.
    pub fn regions(&self) -> &[Region]
        ensures { result.now ≡ self.now.regions }
    {
        self.regions.as_slice()
    }

    /// The address of the first instruction.
    pub fn entry(&self) -> u32
        ensures { result ≡ self.now.entry }
    {
        self.entry
    }

    /// The instruction word at an address, its low byte first. An instruction stands at a multiple of four,
    /// and all its bytes may be executed; None elsewhere.
    pub fn fetch(&self, pc: u32) -> Option<u32>
        ensures { result ≡ fetch_of self.now pc }
    {
        fetch_apart(self.regions.as_slice(), pc)
    }

    /// The byte at an address in the beginning. None outside all regions.
    pub fn initial(&self, address: u32) -> Option<u8>
        ensures { result ≡ initial_of self.now address }
    {
        let region = region_at(self.regions.as_slice(), address)?;
        Some(byte_at(region, address))
    }

    /// What may be done with the byte at an address. None outside all regions.
    pub fn perm(&self, address: u32) -> Option<Perm>
        ensures { result ≡ perm_of self.now address }
    {
        let region = region_at(self.regions.as_slice(), address)?;
        Some(region.perm)
    }

    /// The byte of memory at an address before the first step, with its rights: that of a region, or zero in
    /// a stack. None outside all regions and stacks.
    pub fn opening(&self, address: u32) -> Option<Cell>
        ensures { result ≡ opening_cells self.now address }
    {
        match region_at(self.regions.as_slice(), address) {
            Some(region) => Some(Cell {
                byte: byte_at(region, address),
                readable: region.perm.r,
                writable: region.perm.w,
            }),
            None => stack_cell(address),
        }
    }
}
