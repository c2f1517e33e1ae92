use crate::state::{Local, Note};
use crate::writes::Writes;
use odr_list::bytes::Bytes;
use odr_log::log::Cause;

/// The bytes that an instruction accesses: `count` of them from `address` on, modulo 2^32.
#[derive(Clone, Copy)]
pub struct Access {
    pub address: u32,
    pub count: u32,
}

/// What an access meets: its bytes, or none where one may not be read; and whether all may be written.
#[derive(Drop)]
pub struct Reach {
    pub bytes: Option<Bytes>,
    pub writable: bool,
}

/// A guest call before it is answered, with the misuse that registers and rights alone decide.
#[derive(Drop)]
pub enum Kind {
    Exit { code: u32 },
    EndThread,
    Spawn { entry: u32 },
    Join { target: u32 },
    Lock { mutex: u32 },
    Unlock { mutex: u32 },
    TryLock { mutex: u32 },
    Write { bytes: Bytes },
    WriteBad,
    Read { want: u32 },
    ReadBad,
    SelfId,
    Yield,
    Unknown { number: u32 },
}

/// What a call asks of the state that the calls share, with the one argument that its answer depends on.
#[derive(Clone, Copy)]
pub enum Asked {
    Spawn { entry: u32 },
    Join { target: u32 },
    Lock { mutex: u32 },
    Unlock { mutex: u32 },
    TryLock { mutex: u32 },
    Read { want: u32 },
}

/// What the shared state answers: whether the call is no misuse, the thread that it makes, what it reads.
#[derive(Drop)]
pub struct Reply {
    pub ok: bool,
    pub child: Option<u8>,
    pub bytes: Bytes,
}

/// What an instruction hears from outside its thread: the thread's number, what its access meets, whether a
/// store-conditional wins, the reply to its call, and the value that a join hands on.
#[derive(Drop)]
pub struct Heard {
    pub thread: u8,
    pub reach: Reach,
    pub won: bool,
    pub reply: Reply,
    pub joined: u32,
}

/// What an instruction does: it faults and changes nothing, or the thread goes on, with these writes.
#[derive(Drop)]
pub enum Outcome {
    Faults(Cause),
    Goes {
        local: Local,
        writes: Writes,
        note: Note,
    },
}
