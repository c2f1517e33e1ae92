//! The walk through the records of a log: what the guest calls share, as far as the log tells it.

ghost use Rattle.std.specs.Prelude.{◌≡◌, ◌≤◌, ◌<◌, ◌↔◌, ◌++◌, ◌||◌, [], ◌∷◌, ℕ, List, length, nat_lt, replicate, slice_get, slice_index_or, slice_set, if◌then◌else◌, false, true, None, Some, IsTrue, IfOk, OnOk, is_some};
ghost use Rattle.std.specs.List.{list_all};
ghost use Rattle.odr_log.specs.Tape.{read_by};
ghost use Rattle.rv_model.specs.Calls.{is_mutex};
ghost use Rattle.rv_model.specs.CallsFit.{after_record};
ghost use Rattle.happens_before.specs.Shared.{with_tape, IsAnswered, falls_short, FitsCall, FitsNow};

use odr_list::list::List;
use odr_list::memory::Memory;
use odr_log::log::{Call, CallRec};
use std::alloc::Global;

/// What the guest calls share, without the tape: for each thread that was made whether it ended (with the value 0,
/// since a log doesn't tell with which), the owner of each mutex, and whether a read has met the end of the tape.
#[derive(Drop)]
pub struct Shared {
    pub ended: List<Option<u32>>,
    pub owners: [Option<u8>; 32],
    pub dry: bool,
}

impl Shared {
    /// Thread 0 alone, every mutex free.
    pub fn opening(alloc: Global) -> Result<Self, Memory>
        ensures ended { IfOk result (λ shared. shared.ended ≡ None ∷ []) }
        ensures owners { IfOk result (λ shared. shared.owners ≡ replicate 32 None) }
        ensures dry { IfOk result (λ shared. shared.dry ≡ false) }
    {
        let mut ended = List::new(alloc);
        ended.push(None)?;
        Ok(Shared {
            ended,
            owners: [None; 32],
            dry: false,
        })
    }

    /// Whether every thread that was made has ended.
    pub fn all_ended(&self) -> bool
        ensures { result ≡ list_all is_some self.now.ended }
    {
        self.ended.as_slice().iter().all(|value| value.is_some())
    }

    /// Whether a thread was made and hasn't ended.
    fn is_live(&self, tid: u8) -> bool
        ensures { IsTrue result ↔ (slice_get self.now.ended tid ≡ Some None) }
    {
        matches!(self.ended.as_slice().get(tid as usize), Some(None))
    }

    fn fits_spawn(&self, entry: u32, child: Option<u8>) -> bool
        ensures { (tid : ℕ) (tape : List ℕ) → IsTrue result ↔ IsAnswered (with_tape self.now tape) tid (Call.Spawn entry child) }
    {
        let made = self.ended.len();
        match child {
            Some(child) => entry % 4 == 0 && made < 8 && child as usize == made,
            None => entry % 4 != 0 || made >= 8,
        }
    }

    /// Whether a thread has ended; none where there is no such thread.
    fn has_ended(&self, thread: u32) -> Option<bool>
        ensures { result ≡ (if nat_lt thread (length self.now.ended) then Some (is_some (slice_index_or self.now.ended thread None)) else None) }
    {
        let ended = self.ended.as_slice();
        if (thread as usize) < ended.len() {
            Some(ended[thread as usize].is_some())
        } else {
            None
        }
    }

    fn fits_join(&self, tid: u8, target: u32, ok: bool) -> bool
        ensures { (tape : List ℕ) → IsTrue result ↔ IsAnswered (with_tape self.now tape) tid (Call.Join target ok) }
    {
        if target == u32::from(tid) {
            return !ok;
        }
        match self.has_ended(target) {
            None => !ok,
            Some(ended) => ended && ok,
        }
    }

    /// The owner of a mutex, if it has one; none where there is no such mutex.
    fn owner(&self, mutex: u32) -> Option<Option<u8>>
        ensures { result ≡ (if is_mutex mutex then Some (slice_index_or self.now.owners mutex None) else None) }
    {
        if mutex < 32 {
            Some(self.owners[mutex as usize])
        } else {
            None
        }
    }

    fn fits_lock(&self, tid: u8, mutex: u32, ok: bool) -> bool
        ensures { (tape : List ℕ) → IsTrue result ↔ IsAnswered (with_tape self.now tape) tid (Call.Lock mutex ok) }
    {
        match self.owner(mutex) {
            None => !ok,
            Some(None) => ok,
            Some(Some(owner)) => !ok && owner == tid,
        }
    }

    fn fits_unlock(&self, tid: u8, mutex: u32, ok: bool) -> bool
        ensures { (tape : List ℕ) → IsTrue result ↔ IsAnswered (with_tape self.now tape) tid (Call.Unlock mutex ok) }
    {
        match self.owner(mutex) {
            Some(Some(owner)) => ok == (owner == tid),
            _ => !ok,
        }
    }

    fn fits_try_lock(&self, mutex: u32, got: bool) -> bool
        ensures { (tid : ℕ) (tape : List ℕ) → IsTrue result ↔ IsAnswered (with_tape self.now tape) tid (Call.TryLock mutex got) }
    {
        match self.owner(mutex) {
            Some(None) => got,
            _ => !got,
        }
    }

    /// Whether a read can have met the bytes: it takes all that it wants where the tape goes on.
    fn fits_read(&self, want: u32, bytes: usize) -> bool
        ensures { IsTrue result ↔ ((want ≤ 256) × (bytes ≤ want) × (self.now.dry ≡ true → bytes ≡ 0)) }
    {
        want <= 256 && bytes <= want as usize && (!self.dry || bytes == 0)
    }

    /// Whether a call of a thread that hasn't ended fits.
    fn fits_call(&self, tid: u8, call: &Call) -> bool
        ensures { IsTrue result ↔ FitsCall self.now tid call.now }
    {
        match call {
            Call::Spawn { entry, child } => self.fits_spawn(*entry, *child),
            Call::Join { target, ok } => self.fits_join(tid, *target, *ok),
            Call::Lock { mutex, ok } => self.fits_lock(tid, *mutex, *ok),
            Call::Unlock { mutex, ok } => self.fits_unlock(tid, *mutex, *ok),
            Call::TryLock { mutex, got } => self.fits_try_lock(*mutex, *got),
            Call::Write { bytes } => bytes.len() <= 256,
            Call::Read { want, bytes } => self.fits_read(*want, bytes.len()),
            Call::Unknown { number } => *number == 0 || *number > 11,
            Call::Exit { .. } | Call::EndThread | Call::SelfId | Call::Yield => true,
            Call::WriteBad | Call::ReadBad => true,
        }
    }

    /// Whether a record fits, where what it read is all that is left of the tape, and nothing is left of a dry tape.
    pub fn fits(&self, made: &CallRec) -> bool
        ensures { IsTrue result ↔ FitsNow self.now made.now }
    {
        self.is_live(made.tid) && self.fits_call(made.tid, &made.call)
    }

    fn set_owner(&mut self, mutex: u32, owner: Option<u8>)
        ensures { self.new ≡ record self.old { owners = slice_set self.old.owners mutex owner } }
    {
        if mutex < 32 {
            self.owners[mutex as usize] = owner;
        }
    }

    fn set_end(&mut self, tid: u8)
        ensures { self.new ≡ record self.old { ended = slice_set self.old.ended tid (Some 0) } }
    {
        if (tid as usize) < self.ended.len() {
            self.ended.set(tid as usize, Some(0));
        }
    }

    /// What is left after a record.
    pub fn go_on(&mut self, made: &CallRec) -> Result<(), Memory>
        ensures calls { OnOk result ((later : List ℕ) → after_record (with_tape self.old (read_by made.now.call ++ later)) made.now ≡ with_tape self.new later) }
        ensures dry { OnOk result (self.new.dry ≡ (self.old.dry || falls_short made.now.call)) }
    {
        match &made.call {
            Call::EndThread => self.set_end(made.tid),
            Call::Spawn { child: Some(_), .. } => self.ended.push(None)?,
            Call::Lock { mutex, ok: true } | Call::TryLock { mutex, got: true } => {
                self.set_owner(*mutex, Some(made.tid));
            }
            Call::Unlock { mutex, ok: true } => self.set_owner(*mutex, None),
            Call::Read { want, bytes } if bytes.len() < *want as usize => self.dry = true,
            _ => {}
        }
        Ok(())
    }
}
