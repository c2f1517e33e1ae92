ghost use Rattle.std.specs.Prelude.{◌≡◌, option_map, map, string_bytes, MatchOption, is_some};
ghost use Rattle.odr_words.specs.Arguments.{word_of};
ghost use Rattle.odr_words.specs.Read.{seen_reading, seen_positionals, seen_values, after_word, IsWhole, IsNoJob, job_after};

use crate::command::Command;
use crate::given::Given;
use crate::making::fits;
use crate::options::OptionValues;
use crate::positionals::Positionals;
use crate::word::{Word, word_of};

/// What the words so far gave.
#[derive(Clone, Copy, Debug)]
pub struct Reading<'a> {
    pub given: Given<'a>,
    /// An option that still wants its value.
    pub awaiting: Option<&'a str>,
}

impl<'a> Reading<'a> {
    /// What one more word gives, if it may stand here.
    fn after(self, command: Command, word: &'a str) -> Option<Reading<'a>>
        ensures { option_map seen_reading result ≡ after_word command (seen_reading self.entry) (word_of word.entry.now) }
    {
        let given = self.given;
        match self.awaiting {
            Some(name) => match word_of(word) {
                Word::Plain(value) => Some(Reading {
                    given: Given {
                        options: given.options.with(command, name, value)?,
                        ..given
                    },
                    awaiting: None,
                }),
                _ => None,
            },
            None => match word_of(word) {
                Word::Plain(text) => Some(Reading {
                    given: Given {
                        positionals: given.positionals.with(text)?,
                        ..given
                    },
                    awaiting: None,
                }),
                Word::NameValue(name, value) => Some(Reading {
                    given: Given {
                        options: given.options.with(command, name, value)?,
                        ..given
                    },
                    awaiting: None,
                }),
                Word::Name(name) => Some(Reading {
                    given,
                    awaiting: Some(name),
                }),
                Word::Neither => None,
            },
        }
    }
}

/// What the words after the command give, if each may stand where it does.
fn given_by(command: Command, words: &[String]) -> Option<Given<'_>>
    ensures { let all = map word_of (map string_bytes words.now) in
        MatchOption result (IsNoJob command all)
        (λ given. IsWhole command (seen_positionals given.positionals) (seen_values given.options) all) }
{
    let mut reading = Reading {
        given: Given {
            positionals: Positionals::Zero,
            options: OptionValues {
                seed: None,
                limit: None,
                steps: None,
                input: None,
            },
        },
        awaiting: None,
    };
    for word in words {
        reading = reading.after(command, word.as_str())?;
    }
    match reading.awaiting {
        None => Some(reading.given),
        Some(_) => None,
    }
}

/// Whether words after a command are those of a job. It refuses what clap would take and no job has: a
/// value that is empty or begins with a hyphen, an option of another command, too few words, and
/// numbers in another form or beyond their limits. Takes no memory.
pub fn is_job(command: Command, words: &[String]) -> bool
    ensures { result ≡ is_some (job_after command (map string_bytes words.now)) }
{
    match given_by(command, words) {
        Some(given) => fits(command, &given),
        None => false,
    }
}
