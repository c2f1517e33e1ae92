//! How much of a log a replay has met.

ghost use Rattle.std.specs.Prelude.{◌≡◌, ◌≤◌, ◌<◌, length, replicate, slice_get, slice_index, IsTrue};
ghost use Rattle.odr_log.specs.Same.{same_item, same_rec};
ghost use Rattle.rv_model.specs.Run.{logged, option_test};
ghost use Rattle.guest_calls.specs.Notes.{call_of};
ghost use Rattle.guest_machine.specs.Notes.{note_of};
ghost use Rattle.replay_check.specs.Met.{is_next, past, past_item, past_call};

use crate::next::is_record_at;
use guest_calls::note::CallNote;
use guest_machine::note::Note;
use odr_log::log::{End, Log, PathItem};
use rv_model::logged::{is_counted, is_item_at, path_logged};

/// How much of a log has been met: the number of items of each thread's path, and of calls.
#[derive(Clone, Copy)]
pub struct Met {
    pub items: [usize; 8],
    pub calls: usize,
}

impl Met {
    /// Before the first step.
    pub fn nothing() -> Met
        ensures { result ≡ record { items = replicate 8 0; calls = 0 } }
    {
        Met {
            items: [0; 8],
            calls: 0,
        }
    }

    /// Whether a step is the log's next, which is then met.
    pub fn meets(&mut self, log: &Log, tid: u8, at: u32, note: &Note) -> bool
        requires { length log.now.threads ≤ 8 }
        ensures next { result ≡ is_next log.now self.old (record { thread = tid; at = at; note = note_of note.now }) (note_of note.now) }
        ensures past { IsTrue result → self.new ≡ past self.old tid (note_of note.now) }
    {
        if let Note::Fault(cause) = note {
            let end = End::Faulted { tid, cause: *cause };
            return end.same(&log.end);
        }
        if !is_counted(log, usize::from(tid), at) {
            return false;
        }
        match note {
            Note::Branch(taken) => self.meets_item(log, tid, PathItem::Branch(*taken)),
            Note::Jump(target) => self.meets_item(log, tid, PathItem::Jump(*target)),
            Note::Call(call) => self.meets_call(log, tid, at, call),
            _ => true,
        }
    }

    /// Whether an item is the next one of a thread's path, which is then met.
    fn meets_item(&mut self, log: &Log, tid: u8, item: PathItem) -> bool
        requires { tid < 8 }
        ensures next { result ≡ option_test (same_item item) (slice_get (logged log.now tid).path (slice_index self.old.items tid)) }
        ensures past { IsTrue result → self.new ≡ past_item self.old tid }
    {
        let next = self.items[tid as usize];
        if !is_item_at(path_logged(log, usize::from(tid)), next, item) {
            return false;
        }
        self.items[tid as usize] = next + 1;
        true
    }

    /// Whether the log's next record is of this call, which is then met.
    fn meets_call(&mut self, log: &Log, tid: u8, at: u32, call: &CallNote) -> bool
        ensures next { result ≡ option_test (same_rec (record { tid = tid; at = at; call = call_of call.now })) (slice_get log.now.calls self.old.calls) }
        ensures past { IsTrue result → self.new ≡ past_call self.old }
    {
        if !is_record_at(log.calls.as_slice(), self.calls, tid, at, call) {
            return false;
        }
        self.calls += 1;
        true
    }
}
