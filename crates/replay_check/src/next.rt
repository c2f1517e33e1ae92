//! The call that stands at a place of a log.

ghost use Rattle.std.specs.Prelude.{◌≡◌, ◌<◌, length, slice_get, IsTrue};
ghost use Rattle.odr_log.specs.Same.{same_call, same_rec};
ghost use Rattle.rv_model.specs.Run.{option_test};
ghost use Rattle.guest_calls.specs.Notes.{call_of};

use guest_calls::note::CallNote;
use odr_log::log::{Call, CallRec};

/// Whether the record at a place is of this call of a thread.
pub fn is_record_at(records: &[CallRec], place: usize, tid: u8, at: u32, call: &CallNote) -> bool
    ensures value { result ≡ option_test (same_rec (record { tid = tid; at = at; call = call_of call.now })) (slice_get records.now place) }
    ensures within { IsTrue result → place < length records.now }
{
    place < records.len() && is_record(&records[place], tid, at, call)
}

fn is_record(met: &CallRec, tid: u8, at: u32, call: &CallNote) -> bool
    ensures { result ≡ same_rec (record { tid = tid; at = at; call = call_of call.now }) met.now }
{
    tid == met.tid && at == met.at && is_call(call, &met.call)
}

#[tactic(auto, using(crate::proofs::TestLemmas::tests))]
fn is_call(note: &CallNote, call: &Call) -> bool
    ensures { result ≡ same_call (call_of note.now) call.now }
{
    note.notes(call)
}
