//! The seeded run, recorded.

ghost use Rattle.std.specs.Prelude.{◌≡◌, ◌+◌, ◌%◌, ◌^◌, ◌<◌, ◌≤◌, ℕ, length, true, slice_get, IfOk, IfSome, OnSome, IfNone};
ghost use Rattle.odr_limits.specs.declared.TheConstants.{MOST_STEPS};
ghost use Rattle.odr_log.specs.Grammar.{IsValid};
ghost use Rattle.odr_log.specs.Tape.{output_of};
ghost use Rattle.rv_model.specs.declared.state.State.{State};
ghost use Rattle.rv_model.specs.Step.{thread_at};
ghost use Rattle.rv_model.specs.Run.{HasLog};
ghost use Rattle.guest_machine.specs.Whole.{StandsFor, may_step};
ghost use Rattle.guest_machine.specs.Waiting.{enabled_threads};
ghost use Rattle.guest_sched.specs.Words.{generator_of, generator_after, word_of, next_generator};
ghost use Rattle.recorder.specs.Seeded.{chosen, seeded, log_of_run};
ghost use Rattle.recorder.specs.Added.{Advances};

use crate::log_so_far::LogSoFar;
use elf_image::image::Image;
use guest_machine::machine::Machine;
use guest_sched::chooser::Chooser;
use odr_list::bytes::Bytes;
use odr_list::memory::Memory;
use odr_log::log::Log;
use odr_log::output;
use std::alloc::Global;

/// The log of a run, and the bytes that it wrote.
#[derive(Debug, Drop)]
pub struct Recorded {
    pub log: Log,
    pub output: Bytes,
}

/// The thread that is picked among those that may step, none where no thread may.
#[tactic(auto, using(crate::proofs::Choice::choices))]
fn choose(machine: &Machine, chooser: &mut Chooser) -> Option<u8>
    ensures chosen { result ≡ slice_get (enabled_threads machine.now) (word_of chooser.old % length (enabled_threads machine.now)) }
    ensures drawn { OnSome result (chooser.new ≡ next_generator chooser.old) }
{
    let mut enabled = [0; 8];
    let count = machine.enabled_list(&mut enabled);
    if count == 0 {
        return None;
    }
    let place = chooser.pick(&enabled[..count]);
    Some(enabled[place])
}

/// One step of the seeded schedule: the thread that took it, none where no thread may step.
fn advance(
    alloc: Global,
    machine: &mut Machine,
    chooser: &mut Chooser,
    log: &mut LogSoFar,
) -> Result<Option<u8>, Memory>
    requires room { (u : ℕ) → u < length machine.old.core.threads → (thread_at machine.old.core u).retired + 1 < 2 ^ 32 }
    requires logs { length log.old.threads.items ≡ length machine.old.core.threads }
    ensures chosen { IfOk result (λ went. (seed place : ℕ) (state : State) → StandsFor machine.old state → chooser.old ≡ generator_after place (generator_of seed) → chosen machine.old.image seed state place ≡ went) }
    ensures advances { IfOk result (λ went. IfSome went (λ thread. Advances machine.old log.old.threads.items log.old.calls thread machine.new log.new.threads.items log.new.calls)) }
    ensures drawn { IfOk result (λ went. OnSome went (chooser.new ≡ next_generator chooser.old)) }
    ensures few { IfOk result (λ went. OnSome went (length machine.new.core.threads ≤ 8)) }
    ensures machine_stays { IfOk result (λ went. IfNone went (machine.new ≡ machine.old)) }
    ensures log_stays { IfOk result (λ went. IfNone went (log.new ≡ log.old)) }
{
    match choose(machine, chooser) {
        None => Ok(None),
        Some(tid) => {
            let at = machine.retired(tid);
            let note = machine.step(tid);
            let retired = machine.retired(tid);
            log.put(alloc, tid, at, retired, machine.threads(), &note)?;
            Ok(Some(tid))
        }
    }
}

/// The log of the seeded run.
fn seeded_log(
    alloc: Global,
    image: &Image,
    tape: Vec<u8>,
    seed: u64,
    limit: u32,
) -> Result<Log, Memory>
    requires { limit ≤ MOST_STEPS }
    ensures log { IfOk result (λ log. log ≡ log_of_run image.now tape.items (seeded image.now tape.items seed limit)) }
    ensures valid { IfOk result IsValid }
{
    let mut machine = Machine::load(alloc, image, tape)?;
    let mut chooser = Chooser::new(seed);
    let mut log = LogSoFar::new(alloc)?;
    for _place in 0..limit {
        match advance(alloc, &mut machine, &mut chooser, &mut log)? {
            None => return Ok(log.ended(machine.end())),
            Some(_) => {}
        }
    }
    Ok(log.ended(machine.end()))
}

/// Runs the seeded schedule over an input, and keeps the log of exactly that run. At each place it steps the
/// thread that the place's word picks among the threads that may step; it ends where the machine has halted,
/// where no thread may step, or after `limit` steps.
///
/// # Errors
///
/// `Memory` alone.
pub fn record_run(
    alloc: Global,
    image: &Image,
    tape: Vec<u8>,
    seed: u64,
    limit: u32,
) -> Result<Recorded, Memory>
    requires { limit ≤ MOST_STEPS }
    ensures log { IfOk result (λ run. run.log ≡ log_of_run image.now tape.items (seeded image.now tape.items seed limit)) }
    ensures output { IfOk result (λ run. run.output ≡ output_of run.log) }
    ensures valid { IfOk result (λ run. IsValid run.log) }

    // The schedule over what the log says was read has the log again.
    ensures genuine { IfOk result (λ run. HasLog image.now run.log (seeded image.now tape.items seed limit)) }
{
    let log = seeded_log(alloc, image, tape, seed, limit)?;
    let output = Bytes::of(output(alloc, &log)?);
    Ok(Recorded { log, output })
}
