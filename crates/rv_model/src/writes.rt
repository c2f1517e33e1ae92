ghost use Rattle.std.specs.Prelude.{◌≡◌, [], ◌∷◌, ◌++◌, reverse, is_ok, if◌then◌else◌};
ghost use Rattle.rv_model.specs.Newest.{newest_to};
ghost use Rattle.rv_model.specs.Thread.{touches};

use elf_image::write::Write;
use odr_list::memory::Memory;
use std::alloc::Global;
use std::marker::Model;

/// All writes so far, seen by contracts as their list, the newest first.
#[derive(Drop)]
pub struct Writes {
    oldest_first: Vec<Write>,
}

impl Model for Writes {
    ghost use Rattle.std.specs.Prelude.{List, reverse};
    ghost use Rattle.elf_image.specs.declared.write.Write.{Write};

    ghost Value = { List Write };

    ghost view = { λ w. reverse w.oldest_first.items };
}

impl Writes {
    /// No write. Takes no memory.
    pub fn new(alloc: Global) -> Self
        ensures { result ≡ [] }
    {
        Writes {
            oldest_first: Vec::new(alloc),
        }
    }

    /// The byte of the newest write to an address.
    pub fn newest(&self, address: u32) -> Option<u8>
        ensures { result ≡ newest_to self.now address }
    {
        newest_in(self.oldest_first.as_slice(), address)
    }

    /// Whether one of the writes touches the aligned word at an address.
    pub fn touches(&self, reserved: u32) -> bool
        ensures { result ≡ touches self.now reserved }
    {
        touches_in(self.oldest_first.as_slice(), reserved)
    }

    /// Adds newer writes; want of memory leaves the list as it was.
    pub fn extend(&mut self, newer: &Writes) -> Result<(), Memory>
        ensures { self.new ≡ (if is_ok result then newer.now ++ self.old else self.old) }
    {
        self.oldest_first
            .extend_from_slice(newer.oldest_first.as_slice())?;
        Ok(())
    }

    /// Adds the newest write; want of memory leaves the list as it was.
    pub fn push(&mut self, write: Write) -> Result<(), Memory>
        ensures { self.new ≡ (if is_ok result then write ∷ self.old else self.old) }
    {
        self.oldest_first.push(write)?;
        Ok(())
    }
}

/// The byte of the last write to an address.
fn newest_in(oldest_first: &[Write], address: u32) -> Option<u8>
    ensures { result ≡ newest_to (reverse oldest_first.now) address }
{
    oldest_first
        .iter()
        .rev()
        .find(|write| write.address == address)
        .map(|write| write.byte)
}

fn touches_in(oldest_first: &[Write], reserved: u32) -> bool
    ensures { result ≡ touches (reverse oldest_first.now) reserved }
{
    oldest_first
        .iter()
        .rev()
        .any(|write| write.address / 4 == reserved / 4)
}
