ghost use Rattle.odr_task.specs.Refusals.{reason_of};
ghost use Rattle.odr_task.specs.Verdict.{Refused};
ghost use Rattle.odr_task.specs.Files.{Found, Turns, Reads};

use crate::refusal::{Refusal, Stop};
use odr_io::fail::LoadFail;
use odr_io::files::Files;
use odr_list::bytes::Bytes;
use std::alloc::Global;

/// The bytes of a file. `too_long` is the refusal of one that has more than `limit`.
pub fn load<'a, F: Files>(
    alloc: Global,
    files: &mut F,
    name: &'a str,
    limit: u64,
    too_long: Refusal<'a>,
) -> Result<Bytes, Stop<'a>>
    ensures { Reads (Found (F.held files.old) name.now limit) (Turns (F.held files.old) name.now limit (Refused (reason_of too_long.entry)))
        result (F.held files.old) (F.held files.new) (F.faults files.old) (F.faults files.new) }
{
    let mut bytes = Vec::new(alloc);
    match files.load(alloc, name, limit, &mut bytes) {
        Ok(()) => Ok(Bytes::of(bytes)),
        Err(LoadFail::Absent) => Err(Stop::Refused(Refusal::NoFile(name))),
        Err(LoadFail::TooLong) => Err(Stop::Refused(too_long)),
        Err(LoadFail::Failed) => Err(Stop::Device),
        Err(LoadFail::Memory) => Err(Stop::Memory),
    }
}
