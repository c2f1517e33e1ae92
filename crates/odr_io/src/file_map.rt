ghost use Rattle.std.specs.Prelude.{◌≡◌, is_ok, if◌then◌else◌};
ghost use Rattle.std.specs.Option.{option_copied};
ghost use Rattle.odr_io.specs.Outside.{held_at, holding, no_files};

use crate::Memory;
use std::alloc::Global;
use std::collections::BTreeMap;
use std::marker::Model;

/// Files by name, in memory.
#[derive(Debug, Drop)]
pub(crate) struct FileMap {
    alloc: Global,
    files: BTreeMap<String, Vec<u8>>,
}

impl Model for FileMap {
    ghost use Rattle.odr_io.specs.Outside.{Held};
    ghost use Rattle.odr_io.specs.InMemory.{held_code};
    ghost use Rattle.odr_io.specs.FileMap.{held_in};

    ghost Value = { Held };

    ghost coded = { held_code };

    ghost view = { λ m. held_in m.files.entries };
}

impl FileMap {
    /// No file. Takes no memory.
    pub(crate) fn new(alloc: Global) -> Self
        ensures { result ≡ no_files }
    {
        FileMap {
            alloc,
            files: BTreeMap::new(alloc),
        }
    }

    /// Puts bytes under a name; want of memory leaves the files as they were.
    pub(crate) fn hold(&mut self, name: &str, bytes: &[u8]) -> Result<(), Memory>
        ensures { self.new ≡ (if is_ok result then holding self.old name.now bytes.now else self.old) }
    {
        let key = String::from_str(self.alloc, name)?;
        let value = Vec::from_slice(self.alloc, bytes)?;
        self.files.insert(key, value)?;
        Ok(())
    }

    /// The bytes under a name.
    pub(crate) fn look(&self, name: &str) -> Option<&[u8]>
        ensures { option_copied result ≡ held_at self.now name.now }
    {
        match self.files.get(name) {
            Some(bytes) => Some(bytes.as_slice()),
            None => None,
        }
    }
}
