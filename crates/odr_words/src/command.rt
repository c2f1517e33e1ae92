ghost use Rattle.std.specs.Prelude.{◌≡◌, bytes_eq};
ghost use Rattle.std.specs.List.{list_any};
ghost use Rattle.odr_words.specs.Jobs.{command_of, options_of};

/// The commands of the program.
#[derive(Clone, Copy, Debug)]
pub enum Command {
    Record,
    Infer,
    Check,
    Replay,
    Debug,
    Asm,
    Demo,
}

/// The command that a word names.
pub fn command_of(word: &str) -> Option<Command>
    ensures { result ≡ command_of word.now }
{
    if word == "record" {
        Some(Command::Record)
    } else if word == "infer" {
        Some(Command::Infer)
    } else if word == "check" {
        Some(Command::Check)
    } else if word == "replay" {
        Some(Command::Replay)
    } else if word == "debug" {
        Some(Command::Debug)
    } else if word == "asm" {
        Some(Command::Asm)
    } else if word == "demo" {
        Some(Command::Demo)
    } else {
        None
    }
}

impl Command {
    /// Whether the command takes an option of this name.
    pub fn takes(self, name: &str) -> bool
        ensures { result ≡ list_any (bytes_eq name.now) (options_of self) }
    {
        match self {
            Command::Record => name == "seed" || name == "limit" || name == "input",
            Command::Infer => name == "steps",
            _ => false,
        }
    }
}
