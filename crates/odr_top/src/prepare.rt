ghost use Rattle.std.specs.Prelude.{◌≡◌};
ghost use Rattle.odr_words.specs.Jobs.{IsWithinLimits};
ghost use Rattle.odr_task.specs.Files.{Reads};
ghost use Rattle.odr_task.specs.Done.{Prepared};
ghost use Rattle.odr_top.specs.Owes.{Owes, saves, IsNotBuilt, IsReading, job_in};
ghost use Rattle.odr_top.specs.Answer.{Worked};

use crate::asm::asm;
use crate::infer::infer;
use crate::record::{Options, record};
use crate::replay::replay_log;
use odr_io::files::Files;
use odr_task::done::Done;
use odr_task::refusal::{Refusal, Stop};
use odr_words::fault::WordsFault;
use odr_words::job::Job;
use std::alloc::Global;

/// Does a job but for what it leaves outside.
fn prepare_job<'a, F: Files>(
    alloc: Global,
    files: &mut F,
    job: &'a Job,
) -> Result<Done<'a>, Stop<'a>>
    requires { IsWithinLimits job.now }
    ensures reads { Reads (Prepared (Owes (F.held files.old) job.now) (saves job.now)) (Owes (F.held files.old) job.now)
        result (F.held files.old) (F.held files.new) (F.faults files.old) (F.faults files.new) }
    ensures not_built { IsNotBuilt job.now → (result ≡ Err (Stop.Refused Refusal.NotBuilt)) × (files.new ≡ files.old) }
{
    match job {
        Job::Record {
            elf,
            log,
            seed,
            limit,
            input,
        } => {
            let options = Options {
                seed: *seed,
                limit: *limit,
                input,
            };
            record(alloc, files, elf.as_str(), log.as_str(), options)
        }
        Job::Infer { elf, log, out, .. } => {
            infer(alloc, files, elf.as_str(), log.as_str(), out.as_str())
        }
        Job::Replay { elf, log, sched } => {
            replay_log(alloc, files, elf.as_str(), log.as_str(), sched.as_str())
        }
        Job::Asm { text, elf } => asm(alloc, files, text.as_str(), elf.as_str()),
        Job::Check { .. } | Job::Debug { .. } | Job::Demo { .. } => {
            Err(Stop::Refused(Refusal::NotBuilt))
        }
    }
}

/// Does what the words say but for what it leaves outside. `job` is the reading of the words.
pub fn prepare<'a, F: Files>(
    alloc: Global,
    files: &mut F,
    words: &[String],
    job: &'a Result<Job, WordsFault>,
) -> Result<Done<'a>, Stop<'a>>
    requires { IsReading (job_in words.now) job.now }
    ensures { Worked (job_in words.now) result (files.new ≡ files.old) (F.held files.old) (F.held files.new) (F.faults files.old) (F.faults files.new) }
{
    let _ = words;
    match job {
        Ok(job) => prepare_job(alloc, files, job),
        Err(WordsFault::Bad) => Err(Stop::Refused(Refusal::BadWords)),
        Err(WordsFault::Memory) => Err(Stop::Memory),
    }
}
