ghost use Rattle.std.specs.Prelude.{◌≡◌, IfOk};

use odr_list::memory::Memory;
use std::alloc::Global;
use std::marker::Model;

/// A word of the command line, seen by contracts as the list of its bytes.
#[derive(Debug, Drop)]
pub struct WordText {
    text: String,
}

impl Model for WordText {
    ghost use Rattle.std.specs.Prelude.{List, ℕ, string_bytes};

    ghost Value = { List ℕ };

    ghost view = { λ w. string_bytes w.text };
}

impl WordText {
    /// A copy of a text.
    pub(crate) fn copy_of(alloc: Global, text: &str) -> Result<Self, Memory>
        ensures { IfOk result (λ copy. copy ≡ text.now) }
    {
        let text = String::from_str(alloc, text)?;
        Ok(WordText { text })
    }

    /// The text.
    pub fn as_str(&self) -> &str
        ensures { result.now ≡ self.now }
    {
        self.text.as_str()
    }
}

/// What the program is asked to do, with the defaults of options that were not given. Texts are
/// names of files.
#[derive(Debug, Drop)]
pub enum Job {
    /// Runs a program by the schedule of a seed, for at most `limit` steps, and saves its log. The
    /// input tape is in a file, or empty.
    Record {
        elf: WordText,
        log: WordText,
        seed: u64,
        limit: u32,
        input: Option<WordText>,
    },
    /// Infers a schedule that has the log, or derives in at most `steps` lines that none has, and
    /// saves what it found.
    Infer {
        elf: WordText,
        log: WordText,
        out: WordText,
        steps: u64,
    },
    /// Checks a certificate that no schedule has the log.
    Check {
        elf: WordText,
        log: WordText,
        cert: WordText,
    },
    /// Runs a schedule over the log's inputs.
    Replay {
        elf: WordText,
        log: WordText,
        sched: WordText,
    },
    /// Answers the commands of a debugger about the run of a schedule.
    Debug {
        elf: WordText,
        log: WordText,
        sched: WordText,
    },
    /// Assembles a text and saves the program.
    Asm {
        text: WordText,
        elf: WordText,
    },
    /// Makes, records, infers and replays the demo of a size.
    Demo {
        number: u32,
    },
}
