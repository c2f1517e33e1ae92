ghost use Rattle.std.specs.Prelude.{◌≡◌, ◌<◌, ◌≤◌, ◌∷◌, [], ℕ, replicate, slice_set, Some, None, is_some, IsTrue, IsFalse};
ghost use Rattle.std.specs.List.{list_all};
ghost use Rattle.elf_image.specs.Memory.{Stands};
ghost use Rattle.rv_model.specs.declared.hearing.Reach.{Reach};
ghost use Rattle.rv_model.specs.declared.hearing.Asked.TheVariants as asked;
ghost use Rattle.rv_model.specs.Instruction.{call_writes};
ghost use Rattle.rv_model.specs.Calls.{made, end_value, owner_of, asked_of, waits, reply_to, join_value, answer_of, calls_after};
ghost use Rattle.guest_mem.specs.Blocks.{cells_of};
ghost use Rattle.guest_calls.specs.Notes.{call_of};
ghost use Rattle.guest_calls.specs.Table.{kind_met, asked_in_memory, note_for, is_live, after_of, HasBuffer, HasRoom};

use crate::answers::{after_of, answer_of, bytes_at, fill_buffer};
use crate::call::{After, CallArgs, CallDone};
use crate::end_values::EndValues;
use crate::note::CallNote;
use crate::piece::{MOST, Piece};
use crate::tape::Tape;
use guest_mem::guest_memory::GuestMem;
use std::alloc::Global;
use std::marker::Model;

/// What the guest calls share: the value with which each thread ended, the owner of each mutex, and what is
/// left of the input. Contracts see it as the model's `Calls`. No call takes memory.
#[derive(Drop)]
pub struct CallState {
    ended: EndValues,
    owners: [Option<u8>; 32],
    tape: Tape,
}

impl Model for CallState {
    ghost use Rattle.rv_model.specs.declared.state.Calls.{Calls};

    ghost Value = { Calls };

    ghost view = { λ state. record { ended = state.ended; owners = state.owners; tape = state.tape } };
}

impl CallState {
    /// Thread 0 alone, no mutex held, the whole input.
    pub fn new(alloc: Global, tape: Vec<u8>) -> CallState
        ensures { result ≡ record { ended = None ∷ []; owners = replicate 32 None; tape = tape.items } }
    {
        CallState {
            ended: EndValues::of_first(alloc),
            owners: [None; 32],
            tape: Tape::new(tape),
        }
    }

    /// The number of threads that were made, eight at most.
    pub fn made(&self) -> u8
        ensures value { result ≡ made self.now }
        ensures few { result ≤ 8 }
    {
        self.ended.len() as u8
    }

    /// Whether every thread has ended.
    pub fn all_ended(&self) -> bool
        ensures { result ≡ list_all is_some self.now.ended }
    {
        self.ended.all()
    }

    /// Whether a thread was made and has not ended.
    pub fn is_live(&self, tid: u8) -> bool
        ensures { result ≡ is_live self.now tid }
    {
        (tid as usize) < self.ended.len() && self.end_value(u32::from(tid)).is_none()
    }

    /// The value with which a thread ended, none for one that has not ended or was not made.
    pub fn end_value(&self, thread: u32) -> Option<u32>
        ensures { result ≡ end_value self.now thread }
    {
        self.ended.of(thread)
    }

    /// The thread that holds a mutex, none for one that is free or is no mutex.
    pub fn owner_of(&self, mutex: u32) -> Option<u8>
        ensures { result ≡ owner_of self.now mutex }
    {
        self.owners.get(mutex as usize).copied().flatten()
    }

    /// Whether a thread whose next instruction makes this call is blocked: it joins another thread that has
    /// not ended, or locks a mutex that another thread holds. What the call's buffer meets decides nothing.
    pub fn blocked(&self, tid: u8, args: CallArgs) -> bool
        ensures { (reach : Reach) → result ≡ waits self.now tid (asked_of (kind_met args reach)) }
    {
        match args.number {
            4 => self.join_waits(tid, args.a0),
            5 => self.lock_waits(tid, args.a0),
            _ => false,
        }
    }

    /// Does the call of a thread that has not ended and is not blocked, as the table of calls has it. The
    /// memory stays as it was but for the buffer of a read.
    pub fn apply(&mut self, tid: u8, args: CallArgs, mem: &mut GuestMem) -> CallDone
        requires live { IsTrue (is_live self.old tid) }
        requires unblocked { IsFalse (waits self.old tid (asked_in_memory (cells_of mem.old) args)) }
        ensures note { call_of result.note ≡ note_for self.old (cells_of mem.old) tid args }
        ensures answer { result.a0 ≡ answer_of tid (join_value self.old (asked_in_memory (cells_of mem.old) args)) (call_of result.note) args.a0 }
        ensures shared { self.new ≡ calls_after self.old tid args.a0 (call_of result.note) }
        ensures memory { Stands (cells_of mem.old) (call_writes args.a0 (call_of result.note)) (cells_of mem.new) }
        ensures after { result.after ≡ after_of args.a1 (call_of result.note) }
        ensures room { HasRoom self.old (call_of result.note) }
    {
        let note = self.note(tid, args, mem);
        let a0 = answer_of(tid, self.join_value(args), &note, args.a0);
        let after = after_of(args.a1, &note);
        self.go_on(tid, args.a0, &note);
        fill_buffer(mem, args.a0, &note);
        CallDone { a0, note, after }
    }

    /// Whether a thread that joins another one waits.
    fn join_waits(&self, tid: u8, target: u32) -> bool
        ensures { result ≡ waits self.now tid (Some (asked.Join target)) }
    {
        target != u32::from(tid)
            && ((target as usize) < self.ended.len() && self.end_value(target).is_none())
    }

    /// Whether a thread that locks a mutex waits.
    fn lock_waits(&self, tid: u8, mutex: u32) -> bool
        ensures { result ≡ waits self.now tid (Some (asked.Lock mutex)) }
    {
        mutex < 32 && self.owner_of(mutex).is_some_and(|owner| owner != tid)
    }

    /// The number of the thread that a spawn makes, none where it is misused.
    fn child_for(&self, entry: u32) -> Option<u8>
        ensures { result ≡ (reply_to self.now 0 (Some (asked.Spawn entry))).child }
    {
        let made = self.ended.len();
        if entry % 4 == 0 && made < 8 {
            Some(made as u8)
        } else {
            None
        }
    }

    /// Whether a join is no misuse, of a thread that does not wait.
    fn joins(&self, tid: u8, target: u32) -> bool
        ensures { result ≡ (reply_to self.now tid (Some (asked.Join target))).ok }
    {
        target != u32::from(tid) && self.end_value(target).is_some()
    }

    /// Whether a mutex may be taken.
    fn is_free(&self, mutex: u32) -> bool
        ensures { result ≡ (reply_to self.now 0 (Some (asked.Lock mutex))).ok }
    {
        mutex < 32 && self.owner_of(mutex).is_none()
    }

    /// Whether a thread holds a mutex.
    fn holds(&self, tid: u8, mutex: u32) -> bool
        ensures { result ≡ (reply_to self.now tid (Some (asked.Unlock mutex))).ok }
    {
        mutex < 32 && self.owner_of(mutex).is_some_and(|owner| owner == tid)
    }

    /// The note of a write call.
    fn write_note(&self, args: CallArgs, mem: &GuestMem) -> CallNote
        requires { args.number ≡ 8 }
        ensures note { (tid : ℕ) → call_of result ≡ note_for self.now (cells_of mem.now) tid args }
        ensures room { HasRoom self.now (call_of result) }
        ensures buffer { HasBuffer (cells_of mem.now) args.a0 (call_of result) }
    {
        if args.a1 as usize > MOST {
            return CallNote::WriteBad;
        }
        match bytes_at(self.ended.alloc(), mem, args.a0, args.a1) {
            Some(bytes) => CallNote::Write { bytes },
            None => CallNote::WriteBad,
        }
    }

    /// The note of a read call.
    fn read_note(&self, args: CallArgs, mem: &GuestMem) -> CallNote
        requires { args.number ≡ 9 }
        ensures note { (tid : ℕ) → call_of result ≡ note_for self.now (cells_of mem.now) tid args }
        ensures room { HasRoom self.now (call_of result) }
        ensures buffer { HasBuffer (cells_of mem.now) args.a0 (call_of result) }
    {
        if args.a1 as usize > MOST || !mem.writable(args.a0, args.a1) {
            return CallNote::ReadBad;
        }
        CallNote::Read {
            want: args.a1,
            bytes: Piece::of(self.ended.alloc(), self.tape.front(args.a1)),
        }
    }

    /// The note of a call.
    fn note(&self, tid: u8, args: CallArgs, mem: &GuestMem) -> CallNote
        ensures note { call_of result ≡ note_for self.now (cells_of mem.now) tid args }
        ensures room { HasRoom self.now (call_of result) }
        ensures buffer { HasBuffer (cells_of mem.now) args.a0 (call_of result) }
    {
        let a0 = args.a0;
        match args.number {
            1 => CallNote::Exit { code: a0 },
            2 => CallNote::EndThread,
            3 => CallNote::Spawn {
                entry: a0,
                child: self.child_for(a0),
            },
            4 => CallNote::Join {
                target: a0,
                ok: self.joins(tid, a0),
            },
            5 => CallNote::Lock {
                mutex: a0,
                ok: self.is_free(a0),
            },
            6 => CallNote::Unlock {
                mutex: a0,
                ok: self.holds(tid, a0),
            },
            7 => CallNote::TryLock {
                mutex: a0,
                got: self.is_free(a0),
            },
            8 => self.write_note(args, mem),
            9 => self.read_note(args, mem),
            10 => CallNote::SelfId,
            11 => CallNote::Yield,
            number => CallNote::Unknown { number },
        }
    }

    /// The value that a join hands on, 0 for another call.
    fn join_value(&self, args: CallArgs) -> u32
        ensures { (reach : Reach) → result ≡ join_value self.now (asked_of (kind_met args reach)) }
    {
        if args.number == 4 {
            self.end_value(args.a0).unwrap_or(0)
        } else {
            0
        }
    }

    /// The shared state goes on by a call with this note; an ending thread ends with its a0.
    fn go_on(&mut self, tid: u8, a0: u32, note: &CallNote)
        requires made { tid < made self.old }
        requires room { HasRoom self.old (call_of note.now) }
        ensures { self.new ≡ calls_after self.old tid a0 (call_of note.now) }
    {
        match note {
            CallNote::EndThread => self.ended.set(tid, a0),
            CallNote::Spawn { child: Some(_), .. } => self.ended.push(),
            CallNote::Lock { mutex, ok: true } | CallNote::TryLock { mutex, got: true } => {
                set_owner(&mut self.owners, *mutex, Some(tid));
            }
            CallNote::Unlock { mutex, ok: true } => set_owner(&mut self.owners, *mutex, None),
            CallNote::Read { bytes, .. } => self.tape.skip(bytes.len()),
            _ => {}
        }
    }
}

fn set_owner(owners: &mut [Option<u8>; 32], mutex: u32, owner: Option<u8>)
    ensures { owners.new ≡ slice_set owners.old mutex owner }
{
    if mutex < 32 {
        owners[mutex as usize] = owner;
    }
}
