use odr_io::fail::SaveFail;
use odr_list::memory::Memory;

/// Why the words, or the files that they name, are refused. Each refusal has an exit status and a line.
#[derive(Clone, Copy, Debug)]
pub enum Refusal<'a> {
    /// The words are no job.
    BadWords,
    /// A program's file fails the check of this name first.
    BadElf(&'static str),
    /// Bytes stop to be a log at this offset.
    BadLog(u64),
    /// A log has too many bytes, or too many steps.
    LogTooLarge,
    /// The first line of a text at fault, counted from 1.
    BadLine(u64),
    /// The first line of a text at fault has a name that no line defines.
    UnknownName(u64),
    /// A text, or what is made of it, is too large.
    TextTooLarge,
    /// An input has too many bytes.
    InputTooLarge,
    /// The schedule differs from the log first at this place.
    Differs(u64),
    /// A command, or a log, that is not taken yet.
    NotBuilt,
    /// Nothing is held under this name.
    NoFile(&'a str),
}

/// Why a command stopped before its end.
#[derive(Clone, Copy, Debug)]
pub enum Stop<'a> {
    /// What it was given is refused.
    Refused(Refusal<'a>),
    /// A store or a sink failed.
    Device,
    /// Want of memory.
    Memory,
}

impl<'a> From<Refusal<'a>> for Stop<'a> {
    ghost use Rattle.std.specs.Prelude.{◌≡◌};
    ghost use Rattle.odr_task.specs.declared.refusal.Stop.TheVariants as stop;

    ghost from_gives = { λ refusal given. given ≡ stop.Refused refusal };

    fn from(refusal: Refusal<'a>) -> Self {
        Stop::Refused(refusal)
    }
}

impl From<Memory> for Stop<'_> {
    ghost use Rattle.std.specs.Prelude.{◌≡◌};
    ghost use Rattle.odr_task.specs.declared.refusal.Stop.TheVariants as stop;

    ghost from_gives = { λ _ given. given ≡ stop.Memory };

    fn from(_error: Memory) -> Self {
        Stop::Memory
    }
}

impl From<SaveFail> for Stop<'_> {
    ghost use Rattle.std.specs.Prelude.{◌≡◌};
    ghost use Rattle.odr_task.specs.Refusals.{stop_of};

    ghost from_gives = { λ error given. given ≡ stop_of error };

    fn from(error: SaveFail) -> Self {
        match error {
            SaveFail::Failed => Stop::Device,
            SaveFail::Memory => Stop::Memory,
        }
    }
}
