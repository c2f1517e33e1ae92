ghost use Rattle.std.specs.Prelude.{◌≡◌, List, ℕ, ◌++◌, IfSome, IfNone};
ghost use Rattle.sched_text.specs.declared.run.Run.{Run};
ghost use Rattle.sched_text.specs.Reading.{MayFollow};
ghost use Rattle.sched_text.specs.Text.{line_of};

use crate::number::number_of;
use crate::run::Run;
use crate::split::split_once;

/// The run of the first line, and what follows the line, where the run may follow steps of which the last
/// has the thread `last` and `room` more steps have room.
pub fn next_run(rest: &[u8], last: Option<u8>, room: u32) -> Option<(Run, &[u8])>
    ensures run { IfSome result (λ found. MayFollow last room found.0) }
    ensures line { IfSome result (λ found. rest.now ≡ line_of found.0 ++ found.1.now) }
    ensures none { IfNone result ((run : Run) (after : List ℕ) → MayFollow last room run →
        rest.now ≡ line_of run ++ after → ⊥) }
{
    let (thread, after) = split_once(rest, b' ')?;
    let (count, after) = split_once(after, b'\n')?;
    let thread = number_of(thread, 255)? as u8;
    let count = number_of(count, room as u64)? as u32;
    if count == 0 || last == Some(thread) {
        return None;
    }
    Some((Run { thread, count }, after))
}
