use crate::note::CallNote;

/// The arguments of a call: its number, from register a7, and a0 and a1.
#[derive(Clone, Copy, Debug, PartialEq, Eq)]
pub struct CallArgs {
    pub number: u32,
    pub a0: u32,
    pub a1: u32,
}

/// How the guest goes on after a call.
#[derive(Clone, Copy, Debug, PartialEq, Eq)]
pub enum After {
    /// All threads go on.
    Goes,
    /// The caller has ended.
    Ended,
    /// The machine has halted.
    Halted,
    /// The thread `child` begins at `entry` with the argument `arg`.
    Spawned { child: u8, entry: u32, arg: u32 },
}

/// What a call did: a0 after it, its note, and how the guest goes on.
#[derive(Debug, Drop)]
pub struct CallDone {
    pub a0: u32,
    pub note: CallNote,
    pub after: After,
}
