ghost use Rattle.std.specs.Prelude.{◌≡◌, ◌↔◌, true, is_some, drop, map, string_bytes, Some, None, IfOk, IsErrOf};
ghost use Rattle.odr_words.specs.Jobs.{job_of, IsWithinLimits};
ghost use Rattle.odr_words.specs.Read.{Reads, job_after};

use crate::command::{Command, command_of};
use crate::fault::WordsFault;
use crate::job::Job;
use crate::making::job_with;
use crate::reading::is_job;
use crate::split::split;
use std::alloc::Global;

/// The job of words of which the first is a command's word.
fn job_after(alloc: Global, command: Command, words: &[String]) -> Result<Job, WordsFault>
    requires { is_some (job_after command (map string_bytes (drop 1 words.now))) ≡ true }
    ensures job { Reads (job_after command (map string_bytes (drop 1 words.now))) result }
    ensures limits { IfOk result IsWithinLimits }
{
    let given = split(alloc, command, words)?;
    job_with(alloc, command, &given)
}

fn job_of(alloc: Global, words: &[String]) -> Result<Job, WordsFault>
    ensures job { Reads (job_of (map string_bytes words.now)) result }
    ensures limits { IfOk result IsWithinLimits }
{
    let [first, rest @ ..] = words else {
        return Err(WordsFault::Bad);
    };
    match command_of(first.as_str()) {
        Some(command) if is_job(command, rest) => job_after(alloc, command, words),
        _ => Err(WordsFault::Bad),
    }
}

/// The job that the words of a command line are, without the program's name. `Bad` comes exactly where
/// they are none, however little memory there is; a job may meet want of memory.
pub fn read_words(alloc: Global, words: &[String]) -> Result<Job, WordsFault>
    ensures job { IfOk result (λ job. job_of (map string_bytes words.now) ≡ Some job) }
    ensures limits { IfOk result IsWithinLimits }
    ensures bad { IsErrOf result WordsFault.Bad ↔ (job_of (map string_bytes words.now) ≡ None) }
{
    job_of(alloc, words)
}
