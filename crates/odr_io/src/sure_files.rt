ghost use Rattle.std.specs.Prelude.{◌≡◌, ◌≢◌, ◌<◌, ◌≤◌, ℕ, List, [], length, OnOk, OnErr, IsErrOf, IsOkUnless, IsSomeAnd, is_ok, if◌then◌else◌, vec_len};
ghost use Rattle.std.specs.Option.{option_copied};
ghost use Rattle.odr_io.specs.Outside.{held_at, holding, no_files};

use crate::Memory;
use crate::fail::{LoadFail, SaveFail};
use crate::file_map::FileMap;
use crate::files::Files;
use std::alloc::Global;
use std::marker::Model;

/// A store of files in memory that never fails.
#[derive(Debug, Drop)]
pub struct SureFiles {
    files: FileMap,
}

impl Model for SureFiles {
    ghost use Rattle.odr_io.specs.Outside.{Held};
    ghost use Rattle.odr_io.specs.InMemory.{held_code};

    ghost Value = { Held };

    ghost coded = { held_code };

    ghost view = { λ m. m.files };
}

impl SureFiles {
    /// No file. Takes no memory.
    pub fn new(alloc: Global) -> Self
        ensures { result ≡ no_files }
    {
        SureFiles {
            files: FileMap::new(alloc),
        }
    }

    /// Sets what a name holds.
    pub fn hold(&mut self, name: &str, bytes: &[u8]) -> Result<(), Memory>
        ensures { self.new ≡ (if is_ok result then holding self.old name.now bytes.now else self.old) }
    {
        self.files.hold(name, bytes)
    }

    /// What a name holds.
    pub fn look(&self, name: &str) -> Option<&[u8]>
        ensures { option_copied result ≡ held_at self.now name.now }
    {
        self.files.look(name)
    }
}

impl Files for SureFiles {
    ghost use Rattle.std.specs.Prelude.{Some};

    ghost held = { λ m. Some m };

    ghost faults = { λ _. 0 };

    fn load(
        &mut self,
        _alloc: Global,
        name: &str,
        limit: u64,
        into: &mut Vec<u8>,
    ) -> Result<(), LoadFail>
        ensures never_fails { result ≢ Err LoadFail.Failed }
        ensures loaded { OnOk result (held_at self.old name.now ≡ Some into.new.items) }
        ensures within { OnOk result (vec_len into.new ≤ limit) }

        ensures absent { IsErrOf result LoadFail.Absent → held_at self.old name.now ≡ None }
        ensures too_long { IsErrOf result LoadFail.TooLong →
            IsSomeAnd (held_at self.old name.now) (λ bytes. limit < length bytes) }
        ensures emptied { OnErr result (into.new.items ≡ []) }
        ensures kept { self.new ≡ self.old }
    {
        into.clear();
        let bytes = self.files.look(name).ok_or(LoadFail::Absent)?;
        if bytes.len() as u64 > limit {
            return Err(LoadFail::TooLong);
        }
        into.extend_from_slice(bytes)?;
        Ok(())
    }

    #[tactic(auto, using(crate::specs::Outside::held_after))]
    fn save(&mut self, _alloc: Global, name: &str, bytes: &[u8]) -> Result<(), SaveFail>
        ensures never_fails { IsOkUnless result SaveFail.Memory }
        ensures saved { OnOk result (held_at self.new name.now ≡ Some bytes.now) }
        ensures others { (other : List ℕ) → other ≢ name.now →
            held_at self.new other ≡ held_at self.old other }
        ensures err { OnErr result (self.new ≡ self.old) }
    {
        self.files.hold(name, bytes)?;
        Ok(())
    }
}
