//! The log so far: each thread's path and the calls of all threads, with what each step adds to them.

ghost use Rattle.std.specs.Prelude.{◌≡◌, ◌<◌, [], ◌∷◌, ◌++◌, length, option_to_list, slice_set, slice_index_or, IfOk, OnOk, IfSome};
ghost use Rattle.odr_log.specs.Grammar.{IsItem};
ghost use Rattle.rv_model.specs.Run.{nothing_logged, item_of, record_in};
ghost use Rattle.guest_calls.specs.Notes.{FitsFields};
ghost use Rattle.guest_machine.specs.Notes.{note_of};
ghost use Rattle.recorder.specs.Added.{gone_on, with_step, with_threads, logs_after, FitsLog};

use guest_machine::note::Note;
use odr_list::list::List;
use odr_list::memory::Memory;
use odr_log::log::{CallRec, End, Log, PathItem, ThreadLog};
use std::alloc::Global;

/// What the threads did so far, and their calls in order.
#[derive(Drop)]
pub struct LogSoFar {
    pub threads: Vec<ThreadLog>,
    pub calls: List<CallRec>,
}

/// A branch's or a JALR's item in the path of its thread.
fn item_of(note: &Note) -> Option<PathItem>
    ensures value { result ≡ item_of (note_of note.now) }
    ensures spelled { IfSome result IsItem }
{
    match note {
        Note::Branch(taken) => Some(PathItem::Branch(*taken)),
        Note::Jump(target) => Some(PathItem::Jump(*target)),
        _ => None,
    }
}

/// The record of a step that is a call.
fn record_in(alloc: Global, tid: u8, at: u32, note: &Note) -> Result<Option<CallRec>, Memory>
    ensures value { IfOk result (λ made. made ≡ record_in (record { thread = tid; at = at; note = note_of note.now })) }
    ensures fields { IfOk result (λ made. IfSome made (λ r. FitsFields r.call)) }
{
    match note {
        Note::Call(made) => {
            let call = made.to_call(alloc)?;
            Ok(Some(CallRec { tid, at, call }))
        }
        _ => Ok(None),
    }
}

/// A step's item, or none, and the number of instructions that the thread has retired then.
fn go_on(log: &mut ThreadLog, retired: u32, note: &Note) -> Result<(), Memory>
    ensures log { OnOk result (log.new ≡ gone_on log.old retired (note_of note.now)) }
    ensures spelled { OnOk result (IfSome (item_of (note_of note.now)) IsItem) }
{
    log.steps = retired;
    match item_of(note) {
        None => Ok(()),
        Some(item) => log.path.push(item),
    }
}

/// The same among the logs of all threads.
fn put_step(threads: &mut Vec<ThreadLog>, tid: u8, retired: u32, note: &Note) -> Result<(), Memory>
    requires { tid < length threads.old.items }
    ensures logs { OnOk result (threads.new.items ≡ with_step threads.old.items tid retired (note_of note.now)) }
    ensures spelled { OnOk result (IfSome (item_of (note_of note.now)) IsItem) }
{
    go_on(&mut threads[tid as usize], retired, note)
}

/// A new thread's log, where there are now more threads than logs.
fn put_thread(alloc: Global, threads: &mut Vec<ThreadLog>, count: u8) -> Result<(), Memory>
    ensures { OnOk result (threads.new.items ≡ with_threads count threads.old.items) }
{
    if threads.len() < count as usize {
        threads.push(ThreadLog {
            steps: 0,
            path: List::new(alloc),
        })?;
    }
    Ok(())
}

/// Appends a record where there is one.
fn put_record(calls: &mut List<CallRec>, made: Option<CallRec>) -> Result<(), Memory>
    ensures { OnOk result (calls.new ≡ calls.old ++ option_to_list made) }
{
    match made {
        None => Ok(()),
        Some(made) => calls.push(made),
    }
}

impl LogSoFar {
    /// Before the first step: one thread.
    pub fn new(alloc: Global) -> Result<Self, Memory>
        ensures threads { IfOk result (λ log. log.threads.items ≡ nothing_logged ∷ []) }
        ensures calls { IfOk result (λ log. log.calls ≡ []) }
    {
        let mut threads = Vec::new(alloc);
        threads.push(ThreadLog {
            steps: 0,
            path: List::new(alloc),
        })?;
        Ok(LogSoFar {
            threads,
            calls: List::new(alloc),
        })
    }

    /// A step of a thread that had retired `at` instructions before and `retired` after it; there are `count`
    /// threads then.
    pub fn put(
        &mut self,
        alloc: Global,
        tid: u8,
        at: u32,
        retired: u32,
        count: u8,
        note: &Note,
    ) -> Result<(), Memory>
        requires { tid < length self.old.threads.items }
        ensures threads { OnOk result (self.new.threads.items ≡ logs_after self.old.threads.items tid retired count (note_of note.now)) }
        ensures calls { OnOk result (self.new.calls ≡ self.old.calls ++ option_to_list (record_in (record { thread = tid; at = at; note = note_of note.now }))) }
        ensures spelled { OnOk result (FitsLog (record { thread = tid; at = at; note = note_of note.now })) }
    {
        put_step(&mut self.threads, tid, retired, note)?;
        put_thread(alloc, &mut self.threads, count)?;
        let made = record_in(alloc, tid, at, note)?;
        put_record(&mut self.calls, made)
    }

    /// The log of a run that ends here.
    pub fn ended(self, end: End) -> Log
        ensures { result ≡ record { version = 1; threads = self.threads.items; calls = self.calls; end = end } }
    {
        let LogSoFar { threads, calls } = self;
        Log {
            version: 1,
            threads: List::of(threads),
            calls,
            end,
        }
    }
}
