//! Exact replay of a schedule against a log.

ghost use Rattle.std.specs.Prelude.{◌≡◌, ◌↔◌, ◌+◌, ◌^◌, ◌<◌, ◌≤◌, ◌++◌, ◌∷◌, [], ℕ, List, length, IfOk, IsTrue};
ghost use Rattle.odr_log.specs.Grammar.{IsValid};
ghost use Rattle.odr_log.specs.Tape.{tape_of, output_of};
ghost use Rattle.rv_model.specs.declared.state.State.{State};
ghost use Rattle.rv_model.specs.declared.state.Event.{Event};
ghost use Rattle.rv_model.specs.Step.{thread_at, opening};
ghost use Rattle.rv_model.specs.Run.{HasLog, first_diff};
ghost use Rattle.guest_machine.specs.Whole.{StandsFor};
ghost use Rattle.replay_check.specs.Answer.{answer_of};
ghost use Rattle.replay_check.specs.Met.{HasMet};
ghost use Rattle.replay_check.specs.Advance.{Advances};

use crate::met::Met;
use crate::whole::is_all_met;
use elf_image::image::Image;
use guest_machine::machine::Machine;
use odr_list::bytes::Bytes;
use odr_list::memory::Memory;
use odr_log::log::Log;
use odr_log::{output, tape};
use sched_text::schedule::Schedule;
use std::alloc::Global;

/// What a replay answers.
#[derive(Debug, Drop)]
pub enum Replayed {
    /// The schedule has the log, with this output.
    Same { output: Bytes },
    /// The first place at which the schedule differs from the log: the number, from 0, of the first step
    /// whose thread is not enabled or that is not the log's next, else the number of all steps.
    Differs { place: u64 },
}

/// Replays a schedule over a log's own input: whether its run has exactly that log. One pass; the guest's
/// memory is changed in place, and nothing of the run is kept.
///
/// # Errors
///
/// `Memory` alone.
pub fn replay(
    alloc: Global,
    image: &Image,
    log: &Log,
    schedule: &Schedule,
) -> Result<Replayed, Memory>
    requires { IsValid log.now }
    ensures place { IfOk result (λ answer. answer ≡ answer_of (first_diff image.now log.now schedule.now) (output_of log.now)) }
    ensures same { IfOk result (λ answer. (answer ≡ Replayed.Same (output_of log.now)) ↔ HasLog image.now log.now schedule.now) }
{
    let mut machine = Machine::load(alloc, image, tape(alloc, log)?)?;
    match first_difference(&mut machine, log, schedule.as_slice()) {
        None => Ok(Replayed::Same {
            output: Bytes::of(output(alloc, log)?),
        }),
        Some(place) => Ok(Replayed::Differs {
            place: place as u64,
        }),
    }
}

/// The first place at which the run of a schedule differs from a log, none where it has the log. Takes no memory.
fn first_difference(machine: &mut Machine<'_>, log: &Log, schedule: &[u8]) -> Option<usize>
    requires log { IsValid log.now }
    requires opening { StandsFor machine.old (opening machine.old.image (tape_of log.now)) }
    ensures { result ≡ first_diff machine.old.image log.now schedule.now }
{
    let mut met = Met::nothing();
    for (place, tid) in schedule.iter().enumerate() {
        if !advance(machine, log, &mut met, *tid) {
            return Some(place);
        }
    }
    if is_all_met(machine, log, &met) {
        None
    } else {
        Some(schedule.len())
    }
}

/// Does a step of a thread, and tells whether the thread was enabled and its step the log's next.
fn advance(machine: &mut Machine<'_>, log: &Log, met: &mut Met, tid: u8) -> bool
    requires log { length log.now.threads ≤ 8 }
    requires room { (thread_at machine.old.core tid).retired + 1 < 2 ^ 32 }
    ensures { (state : State) (happened : List Event) → StandsFor machine.old state → HasMet log.now happened met.old → Advances log.now state happened tid machine.old.image result machine.new met.new }
{
    if !machine.enabled(tid) {
        return false;
    }
    let at = machine.retired(tid);
    let note = machine.step(tid);
    met.meets(log, tid, at, &note)
}
