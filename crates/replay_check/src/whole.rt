//! Whether all of a log has been met.

ghost use Rattle.std.specs.Prelude.{◌≡◌, ◌↔◌, ℕ, ◌<◌, ◌≤◌, length, IsTrue};
ghost use Rattle.replay_check.specs.Met.{IsThreadMet, IsAllMet};

use crate::met::Met;
use guest_machine::machine::Machine;
use odr_log::log::Log;
use rv_model::logged::{path_logged, steps_logged};

/// Whether a thread has retired the log's steps and met all of its path.
fn is_thread_met(machine: &Machine<'_>, log: &Log, met: &Met, tid: u8) -> bool
    requires thread { tid < length machine.now.core.threads }
    requires few { tid < 8 }
    ensures { IsTrue result ↔ IsThreadMet log.now machine.now.core met.now tid }
{
    machine.retired(tid) == steps_logged(log, usize::from(tid))
        && met.items[tid as usize] == path_logged(log, usize::from(tid)).len()
}

/// Whether every thread has.
fn are_threads_met(machine: &Machine<'_>, log: &Log, met: &Met) -> bool
    ensures met { IsTrue result → (thread : ℕ) → thread < length machine.now.core.threads → IsThreadMet log.now machine.now.core met.now thread }
    ensures every { ((thread : ℕ) → thread < length machine.now.core.threads → IsThreadMet log.now machine.now.core met.now thread) → IsTrue result }
{
    for tid in 0..machine.threads() {
        if !is_thread_met(machine, log, met, tid) {
            return false;
        }
    }
    true
}

/// Whether a run that is here has met all of a log.
pub fn is_all_met(machine: &Machine<'_>, log: &Log, met: &Met) -> bool
    ensures { IsTrue result ↔ IsAllMet log.now machine.now.core met.now }
{
    usize::from(machine.threads()) == log.threads.len()
        && met.calls == log.calls.len()
        && machine.end().same(&log.end)
        && are_threads_met(machine, log, met)
}
