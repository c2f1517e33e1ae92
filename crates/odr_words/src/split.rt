ghost use Rattle.odr_words.specs.Jobs.{job_with};
ghost use Rattle.odr_words.specs.Read.{job_after, words_at, seen_positionals, seen_values, value_in};
ghost use Rattle.std.specs.Prelude.{option_map, is_some, drop, ◌≡◌, IfOk, IfErr, true, false, map, string_bytes};
ghost use Rattle.clap.specs.Words.{rule_of, app_of, rows_of, found_of, matches_of, takes, kind_of};
ghost use Rattle.clap.specs.declared.error.kind.ErrorKind.TheVariants.{OutOfMemory};
ghost use Rattle.odr_words.specs.Split.{option_rule, places_app, words_app};

use crate::command;
use crate::given::Given;
use crate::options::OptionValues;
use crate::positionals::Positionals;
use clap::error::ErrorKind;
use clap::{Arg, ArgMatches, Command, Error};
use odr_list::memory::Memory;
use std::alloc::{AllocError, Global};

/// The option of a name.
fn option<'a>(alloc: Global, name: &'a str) -> Arg<'a>
    ensures rule { rule_of result ≡ option_rule name.entry.now }
    ensures own { result.global ≡ false }
{
    Arg::new(alloc, name).long(name)
}

/// A command that takes up to three positional words.
fn places<'a>(alloc: Global) -> Result<Command<'a>, AllocError>
    ensures { IfOk result (λ command. app_of command ≡ places_app) }
{
    let first = Arg::new(alloc, "first");
    let second = Arg::new(alloc, "second");
    let third = Arg::new(alloc, "third");
    let bare = Command::new(alloc, "odr").disable_help_flag(true);
    bare.arg(first)?.arg(second)?.arg(third)
}

/// A command that takes up to three positional words, and every option of the program.
fn splitter<'a>(alloc: Global) -> Result<Command<'a>, AllocError>
    ensures { IfOk result (λ command. app_of command ≡ words_app) }
{
    let seed = option(alloc, "seed");
    let limit = option(alloc, "limit");
    let steps = option(alloc, "steps");
    let input = option(alloc, "input");
    let places = places(alloc)?;
    places.arg(seed)?.arg(limit)?.arg(steps)?.arg(input)
}

/// What clap finds in the words.
fn matches<'a>(alloc: Global, words: &'a [String]) -> Result<ArgMatches<'a>, Error>
    ensures rows { IfOk result (λ m. rows_of (found_of m) ≡ matches_of words_app (map string_bytes words.entry.now)) }
    ensures passes { IfErr result (λ e. takes words_app (map string_bytes words.entry.now) ≡ true → kind_of e ≡ OutOfMemory) }
{
    let command = splitter(alloc)?;
    command.try_get_matches_from(words)
}

/// The positional words at three places, of which the later are empty where an earlier is.
fn words_at<'a>(
    first: Option<&'a str>,
    second: Option<&'a str>,
    third: Option<&'a str>,
) -> Positionals<'a>
    ensures { seen_positionals result ≡ words_at (option_map (λ t. t.now) first.entry)
        (option_map (λ t. t.now) second.entry) (option_map (λ t. t.now) third.entry) }
{
    match first {
        None => Positionals::Zero,
        Some(first) => match second {
            None => Positionals::One(first),
            Some(second) => match third {
                None => Positionals::Two(first, second),
                Some(third) => Positionals::Three(first, second, third),
            },
        },
    }
}

/// Splits the words of a job, the command among them. The only error is want of memory.
pub fn split<'a>(
    alloc: Global,
    command: command::Command,
    words: &'a [String],
) -> Result<Given<'a>, Memory>
    requires { is_some (job_after command (map string_bytes (drop 1 words.now))) ≡ true }
    ensures { IfOk result (λ given. job_after command (map string_bytes (drop 1 words.now))
        ≡ job_with command (seen_positionals given.positionals) (value_in (seen_values given.options))) }
{
    match matches(alloc, words) {
        Ok(found) => Ok(Given {
            positionals: words_at(
                found.get_str("first"),
                found.get_str("second"),
                found.get_str("third"),
            ),
            options: OptionValues {
                seed: found.get_str("seed"),
                limit: found.get_str("limit"),
                steps: found.get_str("steps"),
                input: found.get_str("input"),
            },
        }),
        Err(error) => match error.kind() {
            ErrorKind::OutOfMemory => Err(Memory),
            _ => unreachable!(),
        },
    }
}
