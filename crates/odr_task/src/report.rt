ghost use Rattle.std.specs.Prelude.{◌≡◌, ◌≢◌, ◌⊎◌};
ghost use Rattle.std.specs.Option.{IsSomeAnd};
ghost use Rattle.std.specs.Io.KnownBytes.{append_known};
ghost use Rattle.odr_io.specs.Outside.{Rose};
ghost use Rattle.odr_io.specs.Written.{AppendsPrefix};
ghost use Rattle.odr_task.specs.Verdict.{device_line};
ghost use Rattle.odr_task.specs.Refusals.{verdict_of};
ghost use Rattle.odr_task.specs.Settled.{Reported, PartOfLine};

use crate::refusal::Stop;
use odr_io::fail::SaveFail;
use odr_io::sink::{Sink, write_all};
use std::alloc::Global;

/// Writes a line to err, and answers its status where that went well.
fn tell<E: Sink>(err: &mut E, line: &str, status: u8) -> u8
    ensures told { result ≢ 1 → result ≢ 6 → (result ≡ status) × (E.written err.new ≡ append_known (E.written err.old) line.now) }
    ensures cut { AppendsPrefix (E.written err.old) (E.written err.new) line.now }
    ensures device { result ≡ 6 → ((status ≡ 6) × (E.written err.new ≡ append_known (E.written err.old) line.now)) ⊎ Rose (E.faults err.old) (E.faults err.new) }
    ensures steady { result ≢ 6 → E.faults err.new ≡ E.faults err.old }
{
    match write_all(err, line.as_bytes()) {
        Ok(()) => status,
        Err(SaveFail::Failed) => 6,
        Err(SaveFail::Memory) => 1,
    }
}

/// Writes to err why a command stopped, and answers the status: 6 where the line could not be written, and 1
/// where memory did not suffice for it.
pub fn report<E: Sink>(alloc: Global, err: &mut E, stop: Stop<'_>) -> u8
    ensures told { result ≢ 1 → result ≢ 6 → IsSomeAnd (verdict_of stop.entry) (Reported result (E.written err.old) (E.written err.new)) }
    ensures cut { PartOfLine (verdict_of stop.entry) (E.written err.old) (E.written err.new) }
    ensures device { result ≡ 6 → ((stop.entry ≡ Stop.Device) × (E.written err.new ≡ append_known (E.written err.old) device_line)) ⊎ Rose (E.faults err.old) (E.faults err.new) }
    ensures steady { result ≢ 6 → E.faults err.new ≡ E.faults err.old }
{
    match stop {
        Stop::Refused(refusal) => match refusal.line(alloc) {
            Ok(line) => tell(err, line.as_str(), refusal.status()),
            Err(_) => tell(err, "odr: out of memory\n", 1),
        },
        Stop::Device => tell(err, "odr: device\n", 6),
        Stop::Memory => tell(err, "odr: out of memory\n", 1),
    }
}
