ghost use Rattle.std.specs.Prelude.{◌≡◌, ◌≤◌, Some, string_bytes, IfOk};
ghost use Rattle.odr_log.specs.Grammar.{IsValid};
ghost use Rattle.odr_limits.specs.declared.TheConstants.{MOST_STEPS};
ghost use Rattle.recorder.specs.Seeded.{seeded, log_of_run};
ghost use Rattle.odr_task.specs.Files.{Reads};
ghost use Rattle.odr_task.specs.Done.{Makes, Prepared};
ghost use Rattle.odr_top.specs.Record.{cause_name, end_text, record_line, recorded, record_owes};

use crate::load::{load_image, load_tape};
use elf_image::image::Image;
use odr_io::files::Files;
use odr_list::bytes::Bytes;
use odr_list::memory::Memory;
use odr_log::log::{Cause, End, Log};
use odr_log::write_log;
use odr_task::done::{Done, NamedFile, line_bytes};
use odr_task::refusal::Stop;
use odr_words::job::WordText;
use recorder::record_run;
use std::alloc::Global;

/// The name of a fault's cause.
fn cause_name(cause: Cause) -> &'static str
    ensures { result.now ≡ cause_name cause }
{
    match cause {
        Cause::FetchFault => "FetchFault",
        Cause::Illegal => "Illegal",
        Cause::Misaligned => "Misaligned",
        Cause::LoadFault => "LoadFault",
        Cause::StoreFault => "StoreFault",
        Cause::AmoFault => "AmoFault",
        Cause::Breakpoint => "Breakpoint",
    }
}

/// How a run ended.
fn end_text(alloc: Global, end: End) -> Result<String, Memory>
    ensures { IfOk result (λ text. string_bytes text ≡ end_text end) }
{
    Ok(match end {
        End::Exited { tid, code } => format!(in alloc; "exit {tid} {code}")?,
        End::Faulted { tid, cause } => {
            let name = cause_name(cause);
            format!(in alloc; "fault {tid} {name}")?
        }
        End::AllDone => String::from_str(alloc, "done")?,
        End::Cut => String::from_str(alloc, "cut")?,
    })
}

/// The line of a recording.
fn record_line(alloc: Global, log: &Log) -> Result<String, Memory>
    requires { IsValid log.now }
    ensures { IfOk result (λ line. string_bytes line ≡ record_line log.now) }
{
    let steps = log.steps();
    let calls = log.calls.len();
    let end = end_text(alloc, log.end)?;
    Ok(format!(in alloc; "steps {steps}, calls {calls}, end {end}\n")?)
}

/// The log of a run by the schedule of a seed, as it is left.
fn recorded<'a>(
    alloc: Global,
    image: &Image,
    tape: Vec<u8>,
    log: &'a str,
    options: Options<'_>,
) -> Result<Done<'a>, Memory>
    requires { options.limit ≤ MOST_STEPS }
    ensures { IfOk result (Makes (recorded (log_of_run image.now tape.items (seeded image.now tape.items options.entry.seed options.entry.limit))) (Some log.now)) }
{
    let run = record_run(alloc, image, tape, options.seed, options.limit)?;
    let bytes = Bytes::of(write_log(alloc, &run.log)?);
    let line = record_line(alloc, &run.log)?;
    Ok(Done {
        status: 0,
        printed: line_bytes(alloc, line.as_str())?,
        file: Some(NamedFile { name: log, bytes }),
    })
}

/// The options of a recording.
#[derive(Clone, Copy)]
pub struct Options<'a> {
    pub seed: u64,
    pub limit: u32,
    pub input: &'a Option<WordText>,
}

/// Runs a program by the schedule of a seed, and gives its log.
pub fn record<'a, F: Files>(
    alloc: Global,
    files: &mut F,
    elf: &'a str,
    log: &'a str,
    options: Options<'a>,
) -> Result<Done<'a>, Stop<'a>>
    requires { options.limit ≤ MOST_STEPS }
    ensures { Reads (Prepared (record_owes (F.held files.old) elf.now options.entry.seed options.entry.limit options.entry.input.now) (Some log.now))
        (record_owes (F.held files.old) elf.now options.entry.seed options.entry.limit options.entry.input.now)
        result (F.held files.old) (F.held files.new) (F.faults files.old) (F.faults files.new) }
{
    let image = load_image(alloc, files, elf)?;
    let tape = load_tape(alloc, files, options.input)?;
    let done = recorded(alloc, &image, tape, log, options)?;
    Ok(done)
}
