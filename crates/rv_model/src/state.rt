use crate::writes::Writes;
use odr_list::bytes::Bytes;
use odr_list::list::List;
use odr_log::log::{Call, Cause};

/// What a thread alone has: the address of its next instruction, and its registers. x0 reads 0
/// whatever the first of them is.
#[derive(Clone, Copy, Debug)]
pub struct Local {
    pub pc: u32,
    pub registers: [u32; 32],
}

/// A thread: `reservation` is the address of the word that a load-reserved reserved, `retired` the number of
/// its retired instructions.
#[derive(Clone, Copy, Debug)]
pub struct Thread {
    pub local: Local,
    pub reservation: Option<u32>,
    pub retired: u32,
}

/// What the guest calls share: for each thread that was made the value with which it ended, the owner of
/// each mutex, and what is left of the input.
#[derive(Drop)]
pub struct Calls {
    pub ended: List<Option<u32>>,
    pub owners: [Option<u8>; 32],
    pub tape: Bytes,
}

/// Why the machine halted.
#[derive(Clone, Copy, Debug, PartialEq, Eq)]
pub enum Halt {
    /// Thread `tid` called exit with this code.
    Exited { tid: u8, code: u32 },
    /// An instruction of thread `tid` faulted.
    Faulted { tid: u8, cause: Cause },
}

/// The machine without its memory.
#[derive(Drop)]
pub struct Core {
    pub threads: List<Thread>,
    pub calls: Calls,
    pub halt: Option<Halt>,
}

/// The whole machine: its memory is the image's with these writes.
#[derive(Drop)]
pub struct State {
    pub core: Core,
    pub writes: Writes,
}

/// What a step shows of itself.
#[derive(Debug, Drop)]
pub enum Note {
    Nothing,
    /// The outcome of a branch.
    Branch(bool),
    /// The target of a JALR.
    Jump(u32),
    /// A guest call.
    Called(Call),
    /// A fault, which halts the machine.
    Faulted(Cause),
}

/// A step of a run: its thread, the number of instructions that the thread retired before it, its note.
#[derive(Drop)]
pub struct Event {
    pub thread: u8,
    pub at: u32,
    pub note: Note,
}

/// A step: the state after it, and its note.
#[derive(Drop)]
pub struct Stepped {
    pub state: State,
    pub note: Note,
}
