ghost use Rattle.std.specs.Prelude.{◌≡◌, ◌≤◌, ◌++◌, length, [], IfSome, IfNone, IfOk, OnOk};
ghost use Rattle.sched_text.specs.Text.{line_of, schedule_text};
ghost use Rattle.sched_text.specs.TextLaws.{BeginsWith, length_of_run};

use crate::run::Run;
use crate::schedule::Schedule;
use odr_list::memory::Memory;
use std::alloc::Global;

/// How many steps from the first on are of one thread.
fn run_length(steps: &[u8], thread: u8) -> usize
    ensures count { result ≡ length_of_run thread steps.now }
    ensures within { result ≤ length steps.now }
{
    steps.iter().take_while(|step| **step == thread).count()
}

/// The first run of a schedule, or `None` for the empty one.
fn first_run(steps: &[u8]) -> Option<Run>
    requires { length steps.now ≤ 1000000 }
    ensures first { IfSome result (BeginsWith steps.now) }
    ensures none { IfNone result (steps.now ≡ []) }
{
    let thread = *steps.first()?;
    let count = run_length(steps, thread);
    Some(Run {
        thread,
        count: count as u32,
    })
}

/// Appends the line of a run.
fn push_line(alloc: Global, text: &mut Vec<u8>, run: Run) -> Result<(), Memory>
    ensures { OnOk result (text.new.items ≡ text.old.items ++ line_of run) }
{
    let line = format!(in alloc; "{} {}\n", run.thread, run.count)?;
    text.extend_from_slice(line.as_bytes())?;
    Ok(())
}

/// The one text of a schedule: a line for each run of one thread, with the thread and the number of its
/// steps.
pub fn write_schedule(alloc: Global, schedule: &Schedule) -> Result<Vec<u8>, Memory>
    requires { length schedule.now ≤ 1000000 }
    ensures { IfOk result (λ text. text.items ≡ schedule_text schedule.now) }
{
    let mut text = Vec::new(alloc);
    let mut rest = schedule.as_slice();
    while let Some(run) = first_run(rest) {
        push_line(alloc, &mut text, run)?;
        rest = &rest[run.count as usize..];
    }
    Ok(text)
}
