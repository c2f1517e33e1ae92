ghost use Rattle.std.specs.Prelude.{◌≡◌, ◌≢◌, ◌≤◌, Some, length, string_bytes, IfOk, IfErr};
ghost use Rattle.odr_log.specs.Grammar.{IsValid};
ghost use Rattle.odr_task.specs.Files.{StopsBy, Reads};
ghost use Rattle.odr_task.specs.Done.{Makes, Works, Prepared};
ghost use Rattle.odr_top.specs.Limits.{most_entries};
ghost use Rattle.odr_top.specs.Infer.{run_line, inferred, only_schedule, inference, infer_owes};

use crate::load::load_run;
use elf_image::image::Image;
use odr_io::files::Files;
use odr_list::bytes::Bytes;
use odr_list::memory::Memory;
use odr_log::log::{End, Log};
use odr_task::done::{Done, NamedFile, line_bytes};
use odr_task::refusal::{Refusal, Stop};
use replay_check::replay::{Replayed, replay};
use sched_text::schedule::Schedule;
use sched_text::write::write_schedule;
use std::alloc::Global;

/// The number of entries in the schedule of a log of one thread.
fn entries(log: &Log) -> usize
    requires { IsValid log.now }
    ensures value { result ≡ length (only_schedule log.now) }
    ensures few { result ≤ most_entries }
{
    let steps = log.steps() as usize;
    match log.end {
        End::Faulted { .. } => steps + 1,
        _ => steps,
    }
}

/// The schedule of a log of one thread: that thread takes every step.
fn only_schedule(alloc: Global, log: &Log) -> Result<Schedule, Memory>
    requires { IsValid log.now }
    ensures schedule { IfOk result (λ schedule. schedule ≡ only_schedule log.now) }
    ensures short { IfOk result (λ schedule. length schedule ≤ most_entries) }
{
    let mut schedule = Schedule::new(alloc);
    for _step in 0..entries(log) {
        schedule.push(0)?;
    }
    Ok(schedule)
}

/// The schedule that explains the log of one thread.
fn explain<'a>(alloc: Global, image: &Image, log: &Log) -> Result<Schedule, Stop<'a>>
    requires { IsValid log.now }
    ensures found { IfOk result (λ schedule. inference image.now log.now ≡ inferred schedule) }
    ensures short { IfOk result (λ schedule. length schedule ≤ most_entries) }
    ensures refused { IfErr result (StopsBy (λ verdict. verdict ≡ inference image.now log.now)) }
    ensures no_fault { result ≢ Err Stop.Device }
{
    if log.threads.len() != 1 {
        return Err(Stop::Refused(Refusal::NotBuilt));
    }
    let schedule = only_schedule(alloc, log)?;
    match replay(alloc, image, log, &schedule)? {
        Replayed::Same { .. } => Ok(schedule),
        Replayed::Differs { place } => Err(Stop::Refused(Refusal::Differs(place))),
    }
}

/// The line of a found schedule.
fn run_line(alloc: Global, steps: usize) -> Result<String, Memory>
    ensures { IfOk result (λ line. string_bytes line ≡ run_line steps) }
{
    Ok(format!(in alloc; "run, {steps} steps\n")?)
}

/// What a found schedule is left as.
fn found<'a>(alloc: Global, schedule: &Schedule, out: &'a str) -> Result<Done<'a>, Memory>
    requires { length schedule.now ≤ most_entries }
    ensures { IfOk result (Makes (inferred schedule.now) (Some out.now)) }
{
    let bytes = Bytes::of(write_schedule(alloc, schedule)?);
    let line = run_line(alloc, schedule.len())?;
    Ok(Done {
        status: 0,
        printed: line_bytes(alloc, line.as_str())?,
        file: Some(NamedFile { name: out, bytes }),
    })
}

/// What the inference from a program and a log is left as.
fn inference<'a>(
    alloc: Global,
    image: &Image,
    log: &Log,
    out: &'a str,
) -> Result<Done<'a>, Stop<'a>>
    requires { IsValid log.now }
    ensures { Works (inference image.now log.now) (Some out.now) result }
{
    let schedule = explain(alloc, image, log)?;
    let done = found(alloc, &schedule, out)?;
    Ok(done)
}

/// Infers a schedule that has the log. A log of one thread needs no search.
pub fn infer<'a, F: Files>(
    alloc: Global,
    files: &mut F,
    elf: &'a str,
    log: &'a str,
    out: &'a str,
) -> Result<Done<'a>, Stop<'a>>
    ensures { Reads (Prepared (infer_owes (F.held files.old) elf.now log.now) (Some out.now)) (infer_owes (F.held files.old) elf.now log.now)
        result (F.held files.old) (F.held files.new) (F.faults files.old) (F.faults files.new) }
{
    let loaded = load_run(alloc, files, elf, log)?;
    inference(alloc, &loaded.image, &loaded.log, out)
}
