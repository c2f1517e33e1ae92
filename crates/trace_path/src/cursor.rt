//! What the log tells of the next step of a thread.

ghost use Rattle.std.specs.Prelude.{◌≡◌, ℕ, ◌+◌, ◌<◌, ◌∷◌, [], drop, length, slice_get, option_map, IfSome, IfNone, IsTrue, ◌↔◌};
ghost use Rattle.rv_model.specs.Run.{logged};
ghost use Rattle.rv_model.specs.Walk.{records_by};
ghost use Rattle.trace_path.specs.Steps.{told_at, told_by};
ghost use Rattle.trace_path.specs.Items.{jump_of, branch_of};

use odr_log::log::{Call, CallRec, Log, PathItem};
use rv_model::logged::path_logged;
use rv_model::walk::Transfer;

/// Where a thread stands in its log.
#[derive(Clone, Copy)]
pub struct Cursor {
    /// The address of the next instruction.
    pub pc: u32,
    /// Whether the step before was an exit or the thread's end.
    pub over: bool,
    /// How many items of the thread's path are behind it.
    pub items: usize,
    /// How many records of the log, of all threads, are behind it.
    pub calls: usize,
}

/// What a step shows of itself; a call as the log has it.
#[derive(Clone, Copy)]
pub enum Shown<'a> {
    Nothing,
    /// The outcome of a branch.
    Branch(bool),
    /// The target of a JALR.
    Jump(u32),
    /// A guest call.
    Call(&'a Call),
}

/// What the log tells of a step, and how much of the log is then behind the thread.
#[derive(Clone, Copy)]
pub struct Told<'a> {
    pub shown: Shown<'a>,
    pub items: usize,
    pub calls: usize,
}

/// The target that stands at a place of a path.
fn jump_at(path: &[PathItem], at: usize) -> Option<u32>
    ensures value { result ≡ jump_of (slice_get path.now at) }
    ensures within { IfSome result (λ _. at < length path.now) }
{
    match path.get(at) {
        Some(PathItem::Jump(target)) => Some(*target),
        _ => None,
    }
}

/// The outcome of a branch that stands at a place of a path.
fn branch_at(path: &[PathItem], at: usize) -> Option<bool>
    ensures value { result ≡ branch_of (slice_get path.now at) }
    ensures within { IfSome result (λ _. at < length path.now) }
{
    match path.get(at) {
        Some(PathItem::Branch(taken)) => Some(*taken),
        _ => None,
    }
}

/// The place of the first record of a thread from a place on.
pub fn next_record(records: &[CallRec], thread: usize, from: usize) -> Option<usize>
    ensures within { IfSome result (λ at. at < length records.now) }
    ensures some { IfSome result (λ at. (r : CallRec) × (slice_get records.now at ≡ Some r) × (records_by thread (drop from records.now) ≡ r ∷ records_by thread (drop (at + 1) records.now))) }
    ensures none { IfNone result (records_by thread (drop from records.now) ≡ []) }
{
    for at in from..records.len() {
        if usize::from(records[at].tid) == thread {
            return Some(at);
        }
    }
    None
}

/// What the log tells of a JALR.
fn told_jump<'a>(log: &'a Log, thread: usize, cursor: &Cursor) -> Option<Told<'a>>
    ensures { (step : ℕ) → option_map (told_by log.now thread) result ≡ told_at log.now thread step cursor.now Transfer.Indirect }
{
    let target = jump_at(path_logged(log, thread), cursor.items)?;
    Some(Told {
        shown: Shown::Jump(target),
        items: cursor.items + 1,
        calls: cursor.calls,
    })
}

/// What the log tells of a branch.
fn told_branch<'a>(log: &'a Log, thread: usize, cursor: &Cursor) -> Option<Told<'a>>
    ensures { (step target : ℕ) → option_map (told_by log.now thread) result ≡ told_at log.now thread step cursor.now (Transfer.Branch target) }
{
    let taken = branch_at(path_logged(log, thread), cursor.items)?;
    Some(Told {
        shown: Shown::Branch(taken),
        items: cursor.items + 1,
        calls: cursor.calls,
    })
}

/// What the log tells of an ECALL.
fn told_call<'a>(log: &'a Log, thread: usize, step: u32, cursor: &Cursor) -> Option<Told<'a>>
    ensures { option_map (told_by log.now thread) result ≡ told_at log.now thread step cursor.now Transfer.Call }
{
    let records = log.calls.as_slice();
    let at = next_record(records, thread, cursor.calls)?;
    if records[at].at != step {
        return None;
    }
    Some(Told {
        shown: Shown::Call(&records[at].call),
        items: cursor.items,
        calls: at + 1,
    })
}

/// What the log tells of a step that so transfers control, none where it has something else there.
pub fn next_told<'a>(
    log: &'a Log,
    thread: usize,
    step: u32,
    cursor: &Cursor,
    transfer: &Transfer,
) -> Option<Told<'a>>
    ensures { option_map (told_by log.now thread) result ≡ told_at log.now thread step cursor.now transfer.now }
{
    match transfer {
        Transfer::Next | Transfer::Direct { .. } => Some(Told {
            shown: Shown::Nothing,
            items: cursor.items,
            calls: cursor.calls,
        }),
        Transfer::Indirect => told_jump(log, thread, cursor),
        Transfer::Branch { .. } => told_branch(log, thread, cursor),
        Transfer::Call => told_call(log, thread, step, cursor),
        Transfer::Breakpoint => None,
    }
}

/// Whether a path has no item from a place on.
#[tactic(auto, using(crate::proofs::ToldLemmas::ends))]
fn is_at_end(path: &[PathItem], at: usize) -> bool
    ensures { IsTrue result ↔ (drop at path.now ≡ []) }
{
    at >= path.len()
}

/// Whether the log has nothing more of a thread.
pub fn is_used_up(log: &Log, thread: usize, cursor: &Cursor) -> bool
    ensures { IsTrue result ↔ (drop cursor.now.items (logged log.now thread).path ≡ []) × (records_by thread (drop cursor.now.calls log.now.calls) ≡ []) }
{
    is_at_end(path_logged(log, thread), cursor.items)
        && next_record(log.calls.as_slice(), thread, cursor.calls).is_none()
}
