use odr_list::bytes::Bytes;
use odr_list::list::List;

/// A step of a thread: `step` is the number of instructions that the thread retired before it.
#[derive(Clone, Copy, Debug, PartialEq, Eq)]
pub struct Pos {
    pub thread: u8,
    pub step: u32,
}

/// Why an instruction faulted.
#[derive(Clone, Copy, Debug, PartialEq, Eq)]
pub enum Cause {
    FetchFault,
    Illegal,
    Misaligned,
    LoadFault,
    StoreFault,
    AmoFault,
    Breakpoint,
}

/// How a run ended.
#[derive(Clone, Copy, Debug, PartialEq, Eq)]
pub enum End {
    /// Thread `tid` called exit with this code.
    Exited { tid: u8, code: u32 },
    /// An instruction of thread `tid` faulted.
    Faulted { tid: u8, cause: Cause },
    /// All threads have ended.
    AllDone,
    /// The run was cut off, or no thread could go on.
    Cut,
}

/// The outcome of a branch, or the target of a JALR.
#[derive(Clone, Copy, Debug, PartialEq, Eq)]
pub enum PathItem {
    Branch(bool),
    Jump(u32),
}

/// What one thread did: the number of its retired steps, and its branches and jumps in order.
#[derive(Debug, Drop)]
pub struct ThreadLog {
    pub steps: u32,
    pub path: List<PathItem>,
}

/// A guest call with what it answered, as far as no other record tells it.
#[derive(Debug, Drop, PartialEq)]
pub enum Call {
    Exit { code: u32 },
    EndThread,
    Spawn { entry: u32, child: Option<u8> },
    Join { target: u32, ok: bool },
    Lock { mutex: u32, ok: bool },
    Unlock { mutex: u32, ok: bool },
    TryLock { mutex: u32, got: bool },
    Write { bytes: Bytes },
    WriteBad,
    Read { want: u32, bytes: Bytes },
    ReadBad,
    SelfId,
    Yield,
    Unknown { number: u32 },
}

/// A call with its thread and the number of instructions that the thread retired before it.
#[derive(Debug, Drop)]
pub struct CallRec {
    pub tid: u8,
    pub at: u32,
    pub call: Call,
}

/// A log.
#[derive(Debug, Drop)]
pub struct Log {
    pub version: u8,
    pub threads: List<ThreadLog>,
    pub calls: List<CallRec>,
    pub end: End,
}
