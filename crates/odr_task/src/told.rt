ghost use Rattle.std.specs.Prelude.{◌≡◌, IfOk, string_bytes};
ghost use Rattle.odr_task.specs.Refusals.{reason_of};

use crate::refusal::Refusal;
use odr_list::memory::Memory;
use std::alloc::Global;

impl Refusal<'_> {
    /// The line that goes to err.
    pub(crate) fn line(self, alloc: Global) -> Result<String, Memory>
        ensures { IfOk result (λ line. string_bytes line ≡ (reason_of self.entry).line) }
    {
        Ok(match self {
            Refusal::BadWords => String::from_str(alloc, "odr: bad words\n")?,
            Refusal::BadElf(check) => format!(in alloc; "odr: elf: {check}\n")?,
            Refusal::BadLog(offset) => format!(in alloc; "odr: log: bad at {offset}\n")?,
            Refusal::LogTooLarge => String::from_str(alloc, "odr: log: too large\n")?,
            Refusal::BadLine(line) => format!(in alloc; "odr: text: line {line}\n")?,
            Refusal::UnknownName(line) => {
                format!(in alloc; "odr: text: unknown name, line {line}\n")?
            }
            Refusal::TextTooLarge => String::from_str(alloc, "odr: text: too large\n")?,
            Refusal::InputTooLarge => String::from_str(alloc, "odr: input: too large\n")?,
            Refusal::Differs(place) => format!(in alloc; "odr: differs at {place}\n")?,
            Refusal::NotBuilt => String::from_str(alloc, "odr: not built\n")?,
            Refusal::NoFile(name) => format!(in alloc; "odr: no file: {name}\n")?,
        })
    }

    /// The exit status.
    pub(crate) fn status(self) -> u8
        ensures { result ≡ (reason_of self.entry).status }
    {
        match self {
            Refusal::BadWords => 2,
            Refusal::BadElf(_) => 3,
            Refusal::BadLog(_) | Refusal::LogTooLarge => 4,
            Refusal::BadLine(_)
            | Refusal::UnknownName(_)
            | Refusal::TextTooLarge
            | Refusal::InputTooLarge => 5,
            Refusal::Differs(_) => 9,
            Refusal::NotBuilt => 12,
            Refusal::NoFile(_) => 14,
        }
    }
}
