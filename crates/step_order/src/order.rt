//! The steps of a log in one order: each call in the order of the records, after the steps of its thread before it, and then
//! what is left of each thread.
ghost use Rattle.std.specs.Prelude.{◌≡◌, ◌<◌, ◌≤◌, ◌++◌, All, IfOk, OnOk, length, slice_index};
ghost use Rattle.elf_image.specs.Layout.{Layout};
ghost use Rattle.rv_model.specs.CallsFit.{CallsFit};
ghost use Rattle.rv_model.specs.Run.{logged};
ghost use Rattle.rv_model.specs.Walk.{IsWalk, Walk};
ghost use Rattle.step_order.specs.Order.{IsStepOrder};
ghost use Rattle.step_order.specs.SoFar.{IsSoFar, behind, gone_to, steps_between};

use odr_list::list::List;
use odr_list::memory::Memory;
use odr_log::log::{CallRec, Log, Pos};
use rv_model::logged::steps_logged;
use std::alloc::Global;

/// Appends the steps of a thread from one up to another.
fn push_steps(order: &mut List<Pos>, thread: u8, from: u32, to: u32) -> Result<(), Memory>
    requires { from ≤ to }
    ensures { OnOk result (order.new ≡ order.old ++ steps_between thread from to) }
{
    for step in from..to {
        order.push(Pos { thread, step })?;
    }
    Ok(())
}

/// Lets a thread go on up to a step; `next` has the next step of each thread.
fn go_on(order: &mut List<Pos>, next: &mut List<u32>, thread: u8, to: u32) -> Result<(), Memory>
    requires { thread < length next.old }
    ensures order { OnOk result (order.new ≡ order.old ++ steps_between thread (slice_index next.old thread) to) }
    ensures next { OnOk result (next.new ≡ gone_to next.old thread to) }
{
    let from = next.as_slice()[usize::from(thread)];
    if from < to {
        push_steps(order, thread, from, to)?;
        next.set(usize::from(thread), to);
    }
    Ok(())
}

/// The step behind a call.
fn step_behind(log: &Log, called: &CallRec) -> u32
    ensures { result ≡ behind log.now called.now }
{
    let steps = steps_logged(log, usize::from(called.tid));
    if called.at < steps {
        called.at + 1
    } else {
        steps
    }
}

/// Appends each call, after the steps of its thread before it.
fn push_calls(order: &mut List<Pos>, next: &mut List<u32>, log: &Log) -> Result<(), Memory>
    requires callers { All (λ r. r.tid < length log.now.threads) log.now.calls }
    requires count { length next.old ≡ length log.now.threads }
    requires so_far { IsSoFar log.now 0 order.old next.old }
    ensures count { OnOk result (length next.new ≡ length log.now.threads) }
    ensures so_far { OnOk result (IsSoFar log.now (length log.now.calls) order.new next.new) }
{
    for called in log.calls.as_slice() {
        go_on(order, next, called.tid, step_behind(log, called))?;
    }
    Ok(())
}

/// Appends what is left of each thread.
fn push_rest(order: &mut List<Pos>, next: &mut List<u32>, log: &Log) -> Result<(), Memory>
    requires threads { length log.now.threads ≤ 256 }
    requires count { length next.old ≡ length log.now.threads }
    requires so_far { IsSoFar log.now (length log.now.calls) order.old next.old }
    ensures { OnOk result ((image : Layout) (walk : Walk) → IsWalk image log.now walk → CallsFit log.now → IsStepOrder log.now walk order.new) }
{
    for thread in 0..log.threads.len() {
        go_on(order, next, thread as u8, steps_logged(log, thread))?;
    }
    Ok(())
}

/// The counted steps of a log, where its calls fit, in an order in which each stands after what it is made of: the step
/// before it, the spawn of its thread, and the end of a thread that it joins.
///
/// # Errors
///
/// `Memory` alone.
pub fn order_of_steps(alloc: Global, log: &Log) -> Result<List<Pos>, Memory>
    requires callers { All (λ r. r.tid < length log.now.threads) log.now.calls }
    requires threads { length log.now.threads ≤ 256 }
    ensures order { IfOk result (λ steps. (image : Layout) (walk : Walk) → IsWalk image log.now walk → CallsFit log.now → IsStepOrder log.now walk steps) }
{
    let mut order = List::new(alloc);
    let mut next = List::of(vec![in alloc; 0; log.threads.len()]?);
    push_calls(&mut order, &mut next, log)?;
    push_rest(&mut order, &mut next, log)?;
    Ok(order)
}
