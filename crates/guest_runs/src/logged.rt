//! A guest's log, and the places of its walk.

ghost use Rattle.std.specs.Prelude.{IfOk};
ghost use Rattle.odr_log.specs.Grammar.{IsValid};
ghost use Rattle.trace_path.specs.Traced.{IsTraced};

use crate::files::{changed, program_file};
use crate::guests::Guest;
use crate::no_run::NoRun;
use elf_image::image::Image;
use odr_log::log::Log;
use odr_log::read_log;
use std::alloc::Global;
use trace_path::Traces;

/// A guest's image and log, and the places of the log's walk.
#[derive(Drop)]
pub struct Logged {
    pub image: Image,
    pub log: Log,
    pub traces: Traces,
}

/// The log that bytes are.
fn log_in(alloc: Global, bytes: &[u8]) -> Result<Log, NoRun>
    ensures { IfOk result IsValid }
{
    match read_log(alloc, bytes) {
        Ok(log) => Ok(log),
        Err(_) => Err(NoRun::Log),
    }
}

fn image_of(alloc: Global, guest: &Guest) -> Result<Image, NoRun> {
    let file = program_file(alloc, guest.program)?;
    match Image::read(alloc, file.as_slice()) {
        Ok(image) => Ok(image),
        Err(_) => Err(NoRun::File),
    }
}

fn log_of(alloc: Global, guest: &Guest) -> Result<Log, NoRun>
    ensures { IfOk result IsValid }
{
    let bytes = changed(alloc, guest.log, guest.patches)?;
    log_in(alloc, bytes.as_slice())
}

fn traces_of(alloc: Global, image: &Image, log: &Log) -> Result<Traces, NoRun>
    ensures { IfOk result (IsTraced image.now log.now) }
{
    match Traces::build(alloc, image, log)? {
        Some(traces) => Ok(traces),
        None => Err(NoRun::Walk),
    }
}

/// A guest's program and log.
///
/// # Errors
///
/// `NoRun`, where the file, the log or its walk isn't there.
pub fn read_guest(alloc: Global, guest: &Guest) -> Result<Logged, NoRun>
    ensures valid { IfOk result (λ logged. IsValid logged.log) }
    ensures traced { IfOk result (λ logged. IsTraced logged.image logged.log logged.traces) }
{
    let image = image_of(alloc, guest)?;
    let log = log_of(alloc, guest)?;
    let traces = traces_of(alloc, &image, &log)?;
    Ok(Logged { image, log, traces })
}
