//! The counted calls of each thread, by the numbers of their records.

ghost use Rattle.std.specs.Prelude.{◌≡◌, IfOk};
ghost use Rattle.rv_model.specs.Run.{logged};
ghost use Rattle.rv_model.specs.Walk.{makes};
ghost use Rattle.happens_before.specs.Table.{is_counted_record, is_call_of, is_maker, calls_of, maker_number, order_of};

use odr_list::list::List;
use odr_list::memory::Memory;
use odr_log::log::{Call, CallRec, Log};
use std::alloc::Global;

/// A counted call of a thread: its step, and the number of its record among the log's.
#[derive(Clone, Copy, Debug, PartialEq, Eq)]
pub struct Mark {
    pub step: u32,
    pub number: usize,
}

/// The counted calls of a thread in order, and the number of the record of the counted spawn that made it.
#[derive(Debug, Drop)]
pub struct ThreadCalls {
    pub maker: Option<usize>,
    pub calls: List<Mark>,
}

/// The number of steps that the log counts of a thread, 0 for one that it has not.
fn steps_of(log: &Log, tid: u8) -> u32
    ensures { result ≡ (logged log.now tid).steps }
{
    match log.threads.as_slice().get(tid as usize) {
        Some(thread) => thread.steps,
        None => 0,
    }
}

/// Whether the log counts the step of a record.
fn is_counted(log: &Log, made: &CallRec) -> bool
    ensures { result ≡ is_counted_record log.now made.now }
{
    made.at < steps_of(log, made.tid)
}

/// Whether a call made a thread.
fn makes(thread: usize, call: &Call) -> bool
    ensures { result ≡ makes thread call.now }
{
    match call {
        Call::Spawn {
            child: Some(child),
            ..
        } => *child as usize == thread,
        _ => false,
    }
}

/// Whether a record is that of a counted call of a thread.
fn is_call_of(log: &Log, thread: usize, made: &CallRec) -> bool
    ensures { result ≡ is_call_of log.now thread made.now }
{
    made.tid as usize == thread && is_counted(log, made)
}

/// Whether a record is that of a counted spawn that made a thread.
fn is_maker(log: &Log, thread: usize, made: &CallRec) -> bool
    ensures { result ≡ is_maker log.now thread made.now }
{
    makes(thread, &made.call) && is_counted(log, made)
}

/// The counted calls of a thread.
fn calls_of(alloc: Global, log: &Log, thread: usize) -> Result<List<Mark>, Memory>
    ensures { IfOk result (λ calls. calls ≡ calls_of log.now thread) }
{
    let mut calls = Vec::new(alloc);
    for (number, made) in log.calls.as_slice().iter().enumerate() {
        if is_call_of(log, thread, made) {
            calls.push(Mark {
                step: made.at,
                number,
            })?;
        }
    }
    Ok(List::of(calls))
}

/// The number of the last counted spawn that made a thread.
fn maker_number(log: &Log, thread: usize) -> Option<usize>
    ensures { result ≡ maker_number log.now thread }
{
    let mut maker = None;
    for (number, made) in log.calls.as_slice().iter().enumerate() {
        if is_maker(log, thread, made) {
            maker = Some(number);
        }
    }
    maker
}

/// The counted calls of each thread of a log.
pub(crate) fn order_of(alloc: Global, log: &Log) -> Result<List<ThreadCalls>, Memory>
    ensures { IfOk result (λ order. order ≡ order_of log.now) }
{
    let mut threads = Vec::new(alloc);
    for thread in 0..log.threads.len() {
        threads.push(ThreadCalls {
            maker: maker_number(log, thread),
            calls: calls_of(alloc, log, thread)?,
        })?;
    }
    Ok(List::of(threads))
}
