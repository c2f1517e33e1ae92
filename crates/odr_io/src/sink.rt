ghost use Rattle.std.specs.Prelude.{◌≡◌, ◌≢◌, ℕ, ◌<◌, ◌≤◌, List, Option, take, length, IfOk, OnOk, OnErr, IsErrOf};
ghost use Rattle.std.specs.Io.KnownBytes.{append_known};
ghost use Rattle.odr_io.specs.Outside.{Rose};
ghost use Rattle.odr_io.specs.Written.{AppendsPrefix};

use crate::fail::SaveFail;

/// A sink for bytes.
///
/// `written` is what the sink tells of the bytes that it was given so far, or nothing where it does not
/// tell. `faults` counts its faults; it never falls, and stands still at 2^64 - 1.
pub trait Sink {
    ghost written: { Self → Option (List ℕ) };

    ghost faults: { Self → ℕ };

    /// Appends the first bytes of the piece and gives their number, at least 1 for a piece that isn't
    /// empty.
    ///
    /// An `Err` appends nothing, and only `Failed` raises the count of faults.
    fn write(&mut self, piece: &[u8]) -> Result<usize, SaveFail>
        ensures bound { IfOk result (λ count. count ≤ length piece.now) }
        ensures progress { IfOk result (λ count. 0 < length piece.now → 0 < count) }
        ensures appended { IfOk result (λ count.
            written self.new ≡ append_known (written self.old) (take count piece.now)) }
        ensures kept { OnErr result (written self.new ≡ written self.old) }

        ensures failed { IsErrOf result SaveFail.Failed → Rose (faults self.old) (faults self.new) }
        ensures steady { result ≢ Err SaveFail.Failed → faults self.new ≡ faults self.old }
        ensures never_falls { faults self.old ≤ faults self.new };
}

/// Writes all bytes into a sink; an `Err` leaves a prefix of them written.
///
/// Only `Failed` raises the sink's count of faults.
#[tactic(auto, using(crate::specs::Written::prefixes))]
pub fn write_all<O: Sink>(sink: &mut O, bytes: &[u8]) -> Result<(), SaveFail>
    ensures appended { OnOk result (O.written sink.new ≡ append_known (O.written sink.old) bytes.now) }
    ensures prefix { OnErr result (AppendsPrefix (O.written sink.old) (O.written sink.new) bytes.now) }

    ensures failed { IsErrOf result SaveFail.Failed → Rose (O.faults sink.old) (O.faults sink.new) }
    ensures steady { result ≢ Err SaveFail.Failed → O.faults sink.new ≡ O.faults sink.old }
    ensures never_falls { O.faults sink.old ≤ O.faults sink.new }
{
    let mut done = 0;
    while done < bytes.len() {
        done += sink.write(&bytes[done..])?;
    }
    Ok(())
}
