ghost use Rattle.std.specs.Prelude.{◌≡◌, ◌≤◌, ◌-◌, ◌^◌, IfOk, IfSome, option_map, is_some};
ghost use Rattle.odr_limits.specs.declared.TheConstants.{MOST_STEPS};
ghost use Rattle.odr_words.specs.Limits.{default_seed, default_steps, default_lines, most_lines, most_demo};
ghost use Rattle.odr_words.specs.Jobs.{job_with, IsWithinLimits};
ghost use Rattle.odr_words.specs.Numbers.{number_in, number_or};
ghost use Rattle.odr_words.specs.Read.{seen_positionals, seen_values, value_in, Reads};

use crate::command::Command;
use crate::fault::WordsFault;
use crate::given::Given;
use crate::job::{Job, WordText};
use crate::number::{number_in, number_or};
use crate::options::OptionValues;
use crate::positionals::Positionals;
use odr_limits::MOST_STEPS;
use odr_list::memory::Memory;
use std::alloc::Global;

/// A copy of a text that may be absent.
fn optional_copy(alloc: Global, text: Option<&str>) -> Result<Option<WordText>, Memory>
    ensures { IfOk result (λ copy. copy ≡ option_map (λ t. t.now) text.entry) }
{
    match text {
        None => Ok(None),
        Some(text) => Ok(Some(WordText::copy_of(alloc, text)?)),
    }
}

/// The seed, its default or none where it is no number within its limits.
fn seed(options: &OptionValues<'_>) -> Option<u64>
    ensures { result ≡ number_or default_seed 0 (2 ^ 64 - 1) (seen_values options.now).seed }
{
    number_or(42, 0, u64::MAX, options.seed)
}

/// The limit of steps, its default or none where it is no number within its limits.
fn limit(options: &OptionValues<'_>) -> Option<u32>
    ensures value { result ≡ number_or default_steps 1 MOST_STEPS (seen_values options.now).limit }
    ensures within { IfSome result (λ number. number ≤ MOST_STEPS) }
{
    match number_or(100_000, 1, MOST_STEPS, options.limit) {
        Some(limit) => Some(limit as u32),
        None => None,
    }
}

/// The count of derived lines, its default or none where it is no number within its limits.
fn steps(options: &OptionValues<'_>) -> Option<u64>
    ensures value { result ≡ number_or default_lines 1 most_lines (seen_values options.now).steps }
    ensures within { IfSome result (λ number. number ≤ most_lines) }
{
    number_or(20_000, 1, 1_000_000_000, options.steps)
}

/// The size of a demo, or none where it is no number within its limits.
fn size(text: &str) -> Option<u32>
    ensures value { result ≡ number_in 0 most_demo text.now }
    ensures within { IfSome result (λ number. number ≤ most_demo) }
{
    match number_in(text, 0, 40) {
        Some(number) => Some(number as u32),
        None => None,
    }
}

/// Whether a job has this many positional words, and numbers within their limits.
pub fn fits(command: Command, given: &Given<'_>) -> bool
    ensures { result ≡ is_some (job_with command (seen_positionals given.now.positionals)
        (value_in (seen_values given.now.options))) }
{
    let options = &given.options;
    match (command, given.positionals) {
        (Command::Record, Positionals::Two(..)) => seed(options).is_some()
            && limit(options).is_some(),
        (Command::Infer, Positionals::Three(..)) => steps(options).is_some(),
        (Command::Check, Positionals::Three(..)) => true,
        (Command::Replay, Positionals::Three(..)) => true,
        (Command::Debug, Positionals::Three(..)) => true,
        (Command::Asm, Positionals::Two(..)) => true,
        (Command::Demo, Positionals::One(number)) => size(number).is_some(),
        _ => false,
    }
}

fn record(
    alloc: Global,
    words: Positionals<'_>,
    options: OptionValues<'_>,
) -> Result<Job, WordsFault>
    ensures job { Reads (job_with Command.Record (seen_positionals words.entry)
        (value_in (seen_values options.entry))) result }
    ensures limits { IfOk result IsWithinLimits }
{
    let Positionals::Two(elf, log) = words else {
        return Err(WordsFault::Bad);
    };
    let Some(seed) = seed(&options) else {
        return Err(WordsFault::Bad);
    };
    let Some(limit) = limit(&options) else {
        return Err(WordsFault::Bad);
    };
    Ok(Job::Record {
        elf: WordText::copy_of(alloc, elf)?,
        log: WordText::copy_of(alloc, log)?,
        seed,
        limit,
        input: optional_copy(alloc, options.input)?,
    })
}

fn infer(
    alloc: Global,
    words: Positionals<'_>,
    options: OptionValues<'_>,
) -> Result<Job, WordsFault>
    ensures job { Reads (job_with Command.Infer (seen_positionals words.entry)
        (value_in (seen_values options.entry))) result }
    ensures limits { IfOk result IsWithinLimits }
{
    let Positionals::Three(elf, log, out) = words else {
        return Err(WordsFault::Bad);
    };
    let Some(steps) = steps(&options) else {
        return Err(WordsFault::Bad);
    };
    Ok(Job::Infer {
        elf: WordText::copy_of(alloc, elf)?,
        log: WordText::copy_of(alloc, log)?,
        out: WordText::copy_of(alloc, out)?,
        steps,
    })
}

fn check(
    alloc: Global,
    words: Positionals<'_>,
    options: OptionValues<'_>,
) -> Result<Job, WordsFault>
    ensures job { Reads (job_with Command.Check (seen_positionals words.entry)
        (value_in (seen_values options.entry))) result }
    ensures limits { IfOk result IsWithinLimits }
{
    let Positionals::Three(elf, log, cert) = words else {
        return Err(WordsFault::Bad);
    };
    Ok(Job::Check {
        elf: WordText::copy_of(alloc, elf)?,
        log: WordText::copy_of(alloc, log)?,
        cert: WordText::copy_of(alloc, cert)?,
    })
}

fn replay(
    alloc: Global,
    words: Positionals<'_>,
    options: OptionValues<'_>,
) -> Result<Job, WordsFault>
    ensures job { Reads (job_with Command.Replay (seen_positionals words.entry)
        (value_in (seen_values options.entry))) result }
    ensures limits { IfOk result IsWithinLimits }
{
    let Positionals::Three(elf, log, sched) = words else {
        return Err(WordsFault::Bad);
    };
    Ok(Job::Replay {
        elf: WordText::copy_of(alloc, elf)?,
        log: WordText::copy_of(alloc, log)?,
        sched: WordText::copy_of(alloc, sched)?,
    })
}

fn debug(
    alloc: Global,
    words: Positionals<'_>,
    options: OptionValues<'_>,
) -> Result<Job, WordsFault>
    ensures job { Reads (job_with Command.Debug (seen_positionals words.entry)
        (value_in (seen_values options.entry))) result }
    ensures limits { IfOk result IsWithinLimits }
{
    let Positionals::Three(elf, log, sched) = words else {
        return Err(WordsFault::Bad);
    };
    Ok(Job::Debug {
        elf: WordText::copy_of(alloc, elf)?,
        log: WordText::copy_of(alloc, log)?,
        sched: WordText::copy_of(alloc, sched)?,
    })
}

fn asm(alloc: Global, words: Positionals<'_>, options: OptionValues<'_>) -> Result<Job, WordsFault>
    ensures job { Reads (job_with Command.Asm (seen_positionals words.entry)
        (value_in (seen_values options.entry))) result }
    ensures limits { IfOk result IsWithinLimits }
{
    let Positionals::Two(text, elf) = words else {
        return Err(WordsFault::Bad);
    };
    Ok(Job::Asm {
        text: WordText::copy_of(alloc, text)?,
        elf: WordText::copy_of(alloc, elf)?,
    })
}

fn demo(words: Positionals<'_>, options: OptionValues<'_>) -> Result<Job, WordsFault>
    ensures job { Reads (job_with Command.Demo (seen_positionals words.entry)
        (value_in (seen_values options.entry))) result }
    ensures limits { IfOk result IsWithinLimits }
{
    let Positionals::One(number) = words else {
        return Err(WordsFault::Bad);
    };
    match size(number) {
        Some(number) => Ok(Job::Demo { number }),
        None => Err(WordsFault::Bad),
    }
}

/// The job of a command with what was given after it.
pub fn job_with(alloc: Global, command: Command, given: &Given<'_>) -> Result<Job, WordsFault>
    ensures job { Reads (job_with command (seen_positionals given.now.positionals)
        (value_in (seen_values given.now.options))) result }
    ensures limits { IfOk result IsWithinLimits }
{
    let words = given.positionals;
    let options = given.options;
    match command {
        Command::Record => record(alloc, words, options),
        Command::Infer => infer(alloc, words, options),
        Command::Check => check(alloc, words, options),
        Command::Replay => replay(alloc, words, options),
        Command::Debug => debug(alloc, words, options),
        Command::Asm => asm(alloc, words, options),
        Command::Demo => demo(words, options),
    }
}
