ghost use Rattle.std.specs.Prelude.{◌≡◌, None};
ghost use Rattle.odr_log.specs.Grammar.{IsValid};
ghost use Rattle.rv_model.specs.Run.{first_diff};
ghost use Rattle.odr_task.specs.Files.{Reads};
ghost use Rattle.odr_task.specs.Done.{Works, Prepared};
ghost use Rattle.odr_top.specs.Replay.{by_replay, replay_owes};

use crate::load::{load_run, load_schedule};
use elf_image::image::Image;
use odr_io::files::Files;
use odr_log::log::Log;
use odr_task::done::Done;
use odr_task::refusal::{Refusal, Stop};
use replay_check::replay::{Replayed, replay};
use sched_text::schedule::Schedule;
use std::alloc::Global;

/// What the output of a schedule that has the log is left as.
fn output_of<'a>(
    alloc: Global,
    image: &Image,
    log: &Log,
    schedule: &Schedule,
) -> Result<Done<'a>, Stop<'a>>
    requires { IsValid log.now }
    ensures { Works (by_replay log.now (first_diff image.now log.now schedule.now)) None result }
{
    match replay(alloc, image, log, schedule)? {
        Replayed::Same { output } => Ok(Done {
            status: 0,
            file: None,
            printed: output,
        }),
        Replayed::Differs { place } => Err(Stop::Refused(Refusal::Differs(place))),
    }
}

/// Replays a schedule over a log's inputs; what is printed is what the guest wrote.
pub fn replay_log<'a, F: Files>(
    alloc: Global,
    files: &mut F,
    elf: &'a str,
    log: &'a str,
    sched: &'a str,
) -> Result<Done<'a>, Stop<'a>>
    ensures { Reads (Prepared (replay_owes (F.held files.old) elf.now log.now sched.now) None) (replay_owes (F.held files.old) elf.now log.now sched.now)
        result (F.held files.old) (F.held files.new) (F.faults files.old) (F.faults files.new) }
{
    let loaded = load_run(alloc, files, elf, log)?;
    let schedule = load_schedule(alloc, files, sched)?;
    output_of(alloc, &loaded.image, &loaded.log, &schedule)
}
