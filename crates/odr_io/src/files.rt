ghost use Rattle.std.specs.Prelude.{◌≡◌, ◌≢◌, ℕ, ◌≤◌, [], Option, OnOk, OnErr, IsErrOf, is_some, vec_len};
ghost use Rattle.odr_io.specs.Outside.{Held, Holds, HoldsNothing, HoldsMore, HoldsWithin, KeepsOthers, Rose};

use crate::fail::{LoadFail, SaveFail};
use std::alloc::Global;

/// A store of files by name.
///
/// `held` is what the store tells of its files: what is held under each name, or nothing where it does
/// not tell. A store that tells goes on telling, and one that does not never begins. `faults` counts the
/// store's faults; it never falls, and stands still at 2^64 - 1.
pub trait Files {
    ghost held: { Self → Option Held };

    ghost faults: { Self → ℕ };

    /// Puts the file's bytes into `into`, which is cleared first, where they are at most `limit`.
    ///
    /// Any `Err` leaves `into` empty. `Absent` and `TooLong` come only where nothing, or more than
    /// `limit`, is held; `Ok` never comes there. Only `Failed` raises the count of faults.
    fn load(
        &mut self,
        alloc: Global,
        name: &str,
        limit: u64,
        into: &mut Vec<u8>,
    ) -> Result<(), LoadFail>
        ensures loaded { OnOk result (Holds (held self.old) name.now into.new.items) }
        ensures within { OnOk result (vec_len into.new ≤ limit) }
        ensures fits { OnOk result (HoldsWithin (held self.old) name.now limit) }

        ensures absent { IsErrOf result LoadFail.Absent → HoldsNothing (held self.old) name.now }
        ensures too_long { IsErrOf result LoadFail.TooLong → HoldsMore (held self.old) name.now limit }
        ensures emptied { OnErr result (into.new.items ≡ []) }
        ensures kept { held self.new ≡ held self.old }

        ensures failed { IsErrOf result LoadFail.Failed → Rose (faults self.old) (faults self.new) }
        ensures steady { result ≢ Err LoadFail.Failed → faults self.new ≡ faults self.old }
        ensures never_falls { faults self.old ≤ faults self.new };

    /// Makes the named file hold exactly `bytes`.
    ///
    /// Every other name is as it was, whatever the answer. After `Memory` the named file is as it was
    /// too; after `Failed` it may hold anything. Only `Failed` raises the count of faults.
    fn save(&mut self, alloc: Global, name: &str, bytes: &[u8]) -> Result<(), SaveFail>
        ensures saved { OnOk result (Holds (held self.new) name.now bytes.now) }
        ensures others { KeepsOthers (held self.old) (held self.new) name.now }
        ensures memory { IsErrOf result SaveFail.Memory → held self.new ≡ held self.old }
        ensures told { is_some (held self.new) ≡ is_some (held self.old) }

        ensures failed { IsErrOf result SaveFail.Failed → Rose (faults self.old) (faults self.new) }
        ensures steady { result ≢ Err SaveFail.Failed → faults self.new ≡ faults self.old }
        ensures never_falls { faults self.old ≤ faults self.new };
}
