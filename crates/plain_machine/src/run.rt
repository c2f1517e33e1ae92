ghost use Rattle.std.specs.Prelude.{◌≡◌, ◌+◌, ◌<◌, ◌≤◌, ◌^◌, ℕ, List, [], ◌∷◌, ◌++◌, length, true, IfOk, OnOk, is_some, IfSome, OnSome, ◌-◌, option_to_list, option_copied, slice_get};
ghost use Rattle.odr_log.specs.Same.{same_item, same_rec, same_end, same_log};
ghost use Rattle.std.specs.List.{list_all};
ghost use Rattle.odr_log.specs.Tape.{tape_of};
ghost use Rattle.rv_model.specs.Step.{opening, is_enabled, step, thread_at};
ghost use Rattle.rv_model.specs.Run.{event_of, Runs, final, events, item_of, path_of, record_in, is_call, records_of, thread_logs, end_of, log_of, logged, is_counted, option_test, fits, next_item, next_record, agrees, differs_from, first_diff};

use crate::machine;
use elf_image::image::Image;
use odr_list::bytes::Bytes;
use odr_list::list::List;
use odr_list::memory::Memory;
use odr_log::log::{Call, CallRec, End, Log, PathItem, ThreadLog};
use odr_log::tape;
use rv_model::logged::{is_counted, is_item_at, path_logged};
use rv_model::state::{Core, Event, Halt, Note, State, Thread};
use std::alloc::Global;

/// A branch's or a JALR's item in the path of its thread.
fn item_of(note: &Note) -> Option<PathItem>
    ensures { result ≡ item_of note.now }
{
    match note {
        Note::Branch(taken) => Some(PathItem::Branch(*taken)),
        Note::Jump(target) => Some(PathItem::Jump(*target)),
        _ => None,
    }
}

/// The items that an event adds to a thread's path: one or none.
fn items_in(event: &Event, thread: u8) -> usize
    ensures value { result ≡ length (path_of thread (event.now ∷ [])) }
    ensures one { result ≤ 1 }
{
    if event.thread == thread && item_of(&event.note).is_some() {
        1
    } else {
        0
    }
}

/// The number of items that a thread's path has after these events.
#[tactic(auto, using(crate::proofs::Counts::counts))]
fn items_so_far(events: &[Event], thread: u8) -> usize
    ensures { result ≡ length (path_of thread events.now) }
{
    let mut count: usize = 0;
    for event in events {
        count += items_in(event, thread);
    }
    count
}

/// The calls of an event: one or none.
fn calls_in(event: &Event) -> usize
    ensures value { result ≡ length (records_of (event.now ∷ [])) }
    ensures one { result ≤ 1 }
{
    if is_call(&event.note) { 1 } else { 0 }
}

fn is_call(note: &Note) -> bool
    ensures { result ≡ is_call note.now }
{
    matches!(note, Note::Called(_))
}

/// The number of calls in these events.
#[tactic(auto, using(crate::proofs::Counts::counts))]
fn calls_so_far(events: &[Event]) -> usize
    ensures { result ≡ length (records_of events.now) }
{
    let mut count: usize = 0;
    for event in events {
        count += calls_in(event);
    }
    count
}

/// Appends an item where there is one.
fn push_some<T: Drop>(list: &mut List<T>, item: Option<T>) -> Result<(), Memory>
    ensures { OnOk result (list.new ≡ list.old ++ option_to_list item) }
{
    match item {
        None => Ok(()),
        Some(item) => list.push(item),
    }
}

/// The branches and jumps of a thread in order.
#[tactic(auto, using(crate::proofs::Counts::parts))]
fn path_of(alloc: Global, events: &[Event], thread: usize) -> Result<List<PathItem>, Memory>
    ensures { IfOk result (λ path. path ≡ path_of thread events.now) }
{
    let mut path = List::new(alloc);
    for event in events {
        push_some(&mut path, item_in(event, thread))?;
    }
    Ok(path)
}

/// The item that an event adds to a thread's path.
fn item_in(event: &Event, thread: usize) -> Option<PathItem>
    ensures { option_to_list result ≡ path_of thread (event.now ∷ []) }
{
    if usize::from(event.thread) == thread {
        item_of(&event.note)
    } else {
        None
    }
}

fn copy_of(alloc: Global, call: &Call) -> Result<Call, Memory>
    ensures { IfOk result (λ copy. copy ≡ call.now) }
{
    Ok(match call {
        Call::Exit { code } => Call::Exit { code: *code },
        Call::EndThread => Call::EndThread,
        Call::Spawn { entry, child } => Call::Spawn {
            entry: *entry,
            child: *child,
        },
        Call::Join { target, ok } => Call::Join {
            target: *target,
            ok: *ok,
        },
        Call::Lock { mutex, ok } => Call::Lock {
            mutex: *mutex,
            ok: *ok,
        },
        Call::Unlock { mutex, ok } => Call::Unlock {
            mutex: *mutex,
            ok: *ok,
        },
        Call::TryLock { mutex, got } => Call::TryLock {
            mutex: *mutex,
            got: *got,
        },
        Call::Write { bytes } => Call::Write {
            bytes: Bytes::from_slice(alloc, bytes.as_slice())?,
        },
        Call::WriteBad => Call::WriteBad,
        Call::Read { want, bytes } => Call::Read {
            want: *want,
            bytes: Bytes::from_slice(alloc, bytes.as_slice())?,
        },
        Call::ReadBad => Call::ReadBad,
        Call::SelfId => Call::SelfId,
        Call::Yield => Call::Yield,
        Call::Unknown { number } => Call::Unknown { number: *number },
    })
}

/// The record of an event that is a call.
fn record_in(alloc: Global, event: &Event) -> Result<Option<CallRec>, Memory>
    ensures { IfOk result (λ made. option_to_list made ≡ records_of (event.now ∷ [])) }
{
    match &event.note {
        Note::Called(call) => Ok(Some(CallRec {
            tid: event.thread,
            at: event.at,
            call: copy_of(alloc, call)?,
        })),
        _ => Ok(None),
    }
}

/// The calls of all threads in order.
#[tactic(auto, using(crate::proofs::Counts::parts))]
fn records_of(alloc: Global, events: &[Event]) -> Result<List<CallRec>, Memory>
    ensures { IfOk result (λ records. records ≡ records_of events.now) }
{
    let mut records = List::new(alloc);
    for event in events {
        push_some(&mut records, record_in(alloc, event)?)?;
    }
    Ok(records)
}

/// What each thread did.
fn thread_logs(
    alloc: Global,
    threads: &[Thread],
    events: &[Event],
) -> Result<List<ThreadLog>, Memory>
    ensures { IfOk result (λ logs. logs ≡ thread_logs 0 threads.now events.now) }
{
    let mut logs = List::new(alloc);
    for (number, thread) in threads.iter().enumerate() {
        logs.push(ThreadLog {
            steps: thread.retired,
            path: path_of(alloc, events, number)?,
        })?;
    }
    Ok(logs)
}

fn all_ended(ended: &[Option<u32>]) -> bool
    ensures { result ≡ list_all is_some ended.now }
{
    ended.iter().all(|value| value.is_some())
}

/// How a run ended that is here.
fn end_of(core: &Core) -> End
    ensures { result ≡ end_of core.now }
{
    match core.halt {
        Some(Halt::Exited { tid, code }) => End::Exited { tid, code },
        Some(Halt::Faulted { tid, cause }) => End::Faulted { tid, cause },
        None if all_ended(core.calls.ended.as_slice()) => End::AllDone,
        None => End::Cut,
    }
}

/// The log of a run with these events that is in this state.
#[tactic(auto, unfolding(rv_model::specs::Run::log_of))]
pub fn log_of(alloc: Global, state: &State, events: &[Event]) -> Result<Log, Memory>
    ensures { IfOk result (λ log. log ≡ log_of state.now events.now) }
{
    Ok(Log {
        version: 1,
        threads: thread_logs(alloc, state.core.threads.as_slice(), events)?,
        calls: records_of(alloc, events)?,
        end: end_of(&state.core),
    })
}

/// Whether an item is the next one of a thread's path, after these events.
fn is_next_item(log: &Log, happened: &[Event], thread: u8, item: PathItem) -> bool
    ensures { result ≡ option_test (same_item item) (next_item log.now happened.now thread) }
{
    is_item_at(
        path_logged(log, usize::from(thread)),
        items_so_far(happened, thread),
        item,
    )
}

/// Whether a record is the next one of the log, after these events.
fn is_next_record(log: &Log, happened: &[Event], made: &CallRec) -> bool
    ensures { result ≡ option_test (same_rec made.now) (next_record log.now happened.now) }
{
    let records = log.calls.as_slice();
    let next = calls_so_far(happened);
    next < records.len() && made.same(&records[next])
}

/// Whether a step is the log's next after these events: it is counted, and its branch, jump or call is the
/// next one there. A fault is where the log ends in it.
pub fn agrees(alloc: Global, log: &Log, happened: &[Event], event: &Event) -> Result<bool, Memory>
    ensures { IfOk result (λ same. same ≡ agrees log.now happened.now event.now) }
{
    let counted = is_counted(log, usize::from(event.thread), event.at);
    match &event.note {
        Note::Nothing => Ok(counted),
        Note::Branch(taken) => {
            let item = PathItem::Branch(*taken);
            Ok(counted && is_next_item(log, happened, event.thread, item))
        }
        Note::Jump(target) => {
            let item = PathItem::Jump(*target);
            Ok(counted && is_next_item(log, happened, event.thread, item))
        }
        Note::Called(call) => {
            let made = CallRec {
                tid: event.thread,
                at: event.at,
                call: copy_of(alloc, call)?,
            };
            Ok(counted && is_next_record(log, happened, &made))
        }
        Note::Faulted(cause) => {
            let end = End::Faulted {
                tid: event.thread,
                cause: *cause,
            };
            Ok(end.same(&log.end))
        }
    }
}

/// The number of instructions that a thread retired.
fn retired(state: &State, thread: u8) -> u32
    requires { thread < length state.now.core.threads }
    ensures { result ≡ (thread_at state.now.core thread).retired }
{
    state.core.threads.as_slice()[thread as usize].retired
}

/// A step that the log has next: the state after it, and its event.
#[derive(Drop)]
struct Next {
    state: State,
    event: Event,
}

/// The step of a thread, none where it is not enabled or its step is not the log's next.
fn advance(
    alloc: Global,
    image: &Image,
    log: &Log,
    state: State,
    happened: &[Event],
    thread: u8,
) -> Result<Option<Next>, Memory>
    requires { (thread_at state.core thread).retired + 1 < 2 ^ 32 }
    ensures fits { IfOk result (λ found. is_some found ≡ fits image.now log.now state happened.now thread) }
    ensures state { IfOk result (λ found. IfSome found (λ next. next.state ≡ (step image.now state thread).state)) }
    ensures event { IfOk result (λ found. IfSome found (λ next. next.event ≡ event_of image.now state thread)) }
    ensures there { IfOk result (λ found. OnSome found (thread < length state.core.threads)) }
{
    if !machine::enabled(alloc, image, &state, thread)? {
        return Ok(None);
    }
    let at = retired(&state, thread);
    let stepped = machine::step(alloc, image, state, thread)?;
    let event = Event {
        thread,
        at,
        note: stepped.note,
    };
    if !agrees(alloc, log, happened, &event)? {
        return Ok(None);
    }
    Ok(Some(Next {
        state: stepped.state,
        event,
    }))
}

/// The first place at which a schedule differs from a log, none where it has the log: the first place whose
/// thread is not enabled or whose step is not the log's next, else the schedule's length where the log of its
/// run is another.
#[tactic(auto, unfolding(rv_model::specs::Run::first_diff))]
pub fn first_difference(
    alloc: Global,
    image: &Image,
    log: &Log,
    schedule: &[u8],
) -> Result<Option<usize>, Memory>
    requires { length schedule.now < 2 ^ 32 - 1 }
    ensures { IfOk result (λ place. place ≡ first_diff image.now log.now schedule.now) }
{
    let input = Bytes::of(tape(alloc, log)?);
    let mut state = machine::opening(alloc, image, input)?;
    let mut happened = List::new(alloc);
    for (place, thread) in schedule.iter().enumerate() {
        match advance(alloc, image, log, state, happened.as_slice(), *thread)? {
            None => return Ok(Some(place)),
            Some(next) => {
                happened.push(next.event)?;
                state = next.state;
            }
        }
    }
    if log_of(alloc, &state, happened.as_slice())?.same(log) {
        Ok(None)
    } else {
        Ok(Some(schedule.len()))
    }
}
