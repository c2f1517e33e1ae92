ghost use Rattle.std.specs.Prelude.{◌≡◌, ◌⊎◌, IfOk, IfErr};
ghost use Rattle.sched_text.specs.FirstBad.{IsScheduleText, IsCause};
ghost use Rattle.sched_text.specs.Text.{IsTextOf};

use crate::fault::SchedFault;
use crate::line::next_run;
use crate::schedule::Schedule;
use std::alloc::Global;

/// The most steps that the text of a schedule may have.
const MOST_STEPS: usize = 1_000_000;

/// The schedule of which the bytes are the text.
///
/// A line names a thread, from 0 to 255, and after one space how many steps it takes in a row, at least 1;
/// both numbers are decimal, without sign or leading zero, and a line feed ends the line. Two lines in a row
/// never name one thread, and there are no more than 1,000,000 steps. `Bad` comes where some line breaks
/// this, with the first such line, or the one with which the steps become too many; lines count from 1.
pub fn read_schedule(alloc: Global, bytes: &[u8]) -> Result<Schedule, SchedFault>
    ensures schedule { IfOk result (λ schedule. IsTextOf schedule bytes.now) }
    ensures first_bad { IfErr result (IsCause bytes.now) }
    ensures no_schedule { IfErr result (λ fault. (fault ≡ SchedFault.Memory) ⊎ (¬ IsScheduleText bytes.now)) }
{
    let mut schedule = Schedule::new(alloc);
    let mut last = None;
    let mut line = 1;
    let mut rest = bytes;
    while !rest.is_empty() {
        let room = MOST_STEPS - schedule.len();
        let Some((run, after)) = next_run(rest, last, room as u32) else {
            return Err(SchedFault::Bad { line });
        };
        schedule.append(run)?;
        last = Some(run.thread);
        line += 1;
        rest = after;
    }
    Ok(schedule)
}
