ghost use Rattle.std.specs.Prelude.{◌≡◌, ℕ, ◌<◌, ◌≤◌, List, Option, take, length, IfOk, OnOk, OnErr};
ghost use Rattle.std.specs.Io.KnownBytes.{prepend_known, IsAtEnd};
ghost use Rattle.odr_io.specs.Outside.{Rose};

use crate::fail::Failed;

/// A source of bytes.
///
/// `left` is what the source tells of the bytes that it has left, or nothing where it does not tell.
/// `faults` counts its faults; it never falls, and stands still at 2^64 - 1.
pub trait Source {
    ghost left: { Self → Option (List ℕ) };

    ghost faults: { Self → ℕ };

    /// Hands out the first bytes that are left into the front of `into`, and gives their number.
    ///
    /// `Ok(0)` for an `into` with room means that nothing is left. `Failed` hands out nothing, and it
    /// alone raises the count of faults. Takes no memory.
    fn read(&mut self, into: &mut [u8]) -> Result<usize, Failed>
        ensures bound { IfOk result (λ count. count ≤ length into.new) }
        ensures handed { IfOk result (λ count.
            left self.old ≡ prepend_known (take count into.new) (left self.new)) }
        ensures end { result ≡ Ok 0 → 0 < length into.new → IsAtEnd (left self.new) }
        ensures kept { OnErr result (left self.new ≡ left self.old) }

        ensures failed { OnErr result (Rose (faults self.old) (faults self.new)) }
        ensures steady { OnOk result (faults self.new ≡ faults self.old) }
        ensures never_falls { faults self.old ≤ faults self.new };
}
