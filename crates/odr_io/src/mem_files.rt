ghost use Rattle.std.specs.Prelude.{◌≡◌, ◌↔◌, ◌≢◌, ◌<◌, ◌≤◌, ℕ, List, [], length, OnOk, OnErr, IsErrOf, IsSomeAnd, IsTrue, is_ok, if◌then◌else◌, vec_len};
ghost use Rattle.std.specs.Option.{option_copied};
ghost use Rattle.odr_io.specs.Calls.{after_call, fails_next, no_calls};
ghost use Rattle.odr_io.specs.Outside.{held_at, holding, no_files};

use crate::Memory;
use crate::calls::Calls;
use crate::fail::{LoadFail, SaveFail};
use crate::file_map::FileMap;
use crate::files::Files;
use std::alloc::Global;
use std::marker::Model;

/// A store of files in memory, whose calls fail where their numbers say so.
#[derive(Debug, Drop)]
pub struct MemFiles {
    files: FileMap,
    calls: Calls,
}

impl Model for MemFiles {
    ghost use Rattle.odr_io.specs.InMemory.{FilesInMemory, files_code};

    ghost Value = { FilesInMemory };

    ghost coded = { files_code };

    ghost view = { λ m. record { held = m.files; calls = m.calls } };
}

impl MemFiles {
    /// No file; the calls whose numbers are in `fails` are to fail. Takes no memory.
    pub fn new(alloc: Global, fails: Vec<u64>) -> Self
        ensures { result ≡ record { held = no_files; calls = no_calls fails.items } }
    {
        MemFiles {
            files: FileMap::new(alloc),
            calls: Calls::new(fails),
        }
    }

    /// Sets what a name holds, and counts as no call.
    pub fn hold(&mut self, name: &str, bytes: &[u8]) -> Result<(), Memory>
        ensures held { self.new.held ≡
            (if is_ok result then holding self.old.held name.now bytes.now else self.old.held) }
        ensures calls { self.new.calls ≡ self.old.calls }
    {
        self.files.hold(name, bytes)
    }

    /// What a name holds.
    pub fn look(&self, name: &str) -> Option<&[u8]>
        ensures { option_copied result ≡ held_at self.now.held name.now }
    {
        self.files.look(name)
    }
}

impl Files for MemFiles {
    ghost use Rattle.std.specs.Prelude.{Some};

    ghost held = { λ m. Some m.held };

    ghost faults = { λ m. m.calls.faults };

    fn load(
        &mut self,
        _alloc: Global,
        name: &str,
        limit: u64,
        into: &mut Vec<u8>,
    ) -> Result<(), LoadFail>
        ensures loaded { OnOk result (held_at self.old.held name.now ≡ Some into.new.items) }
        ensures within { OnOk result (vec_len into.new ≤ limit) }

        ensures absent { IsErrOf result LoadFail.Absent → held_at self.old.held name.now ≡ None }
        ensures too_long { IsErrOf result LoadFail.TooLong →
            IsSomeAnd (held_at self.old.held name.now) (λ bytes. limit < length bytes) }
        ensures emptied { OnErr result (into.new.items ≡ []) }
        ensures kept { self.new.held ≡ self.old.held }

        ensures fails { IsErrOf result LoadFail.Failed ↔ IsTrue (fails_next self.old.calls) }
        ensures calls { self.new.calls ≡ after_call self.old.calls }
        ensures never_falls { self.old.calls.faults ≤ self.new.calls.faults }
    {
        into.clear();
        self.calls.make()?;
        let bytes = self.files.look(name).ok_or(LoadFail::Absent)?;
        if bytes.len() as u64 > limit {
            return Err(LoadFail::TooLong);
        }
        into.extend_from_slice(bytes)?;
        Ok(())
    }

    #[tactic(auto, using(crate::specs::Outside::held_after))]
    fn save(&mut self, _alloc: Global, name: &str, bytes: &[u8]) -> Result<(), SaveFail>
        ensures saved { OnOk result (held_at self.new.held name.now ≡ Some bytes.now) }
        ensures others { (other : List ℕ) → other ≢ name.now →
            held_at self.new.held other ≡ held_at self.old.held other }
        ensures err { OnErr result (self.new.held ≡ self.old.held) }

        ensures fails { IsErrOf result SaveFail.Failed ↔ IsTrue (fails_next self.old.calls) }
        ensures calls { self.new.calls ≡ after_call self.old.calls }
        ensures never_falls { self.old.calls.faults ≤ self.new.calls.faults }
    {
        self.calls.make()?;
        self.files.hold(name, bytes)?;
        Ok(())
    }
}
