//! Back to where a learned line has its key open, or to the first decision.
ghost use Rattle.std.specs.Prelude.{◌≡◌, ◌<◌, IfOk, IfSome};
ghost use Rattle.sat_trail.specs.Paths.{IsDecision};
ghost use Rattle.sat_core.specs.Analyses.{IsLearned};
ghost use Rattle.sat_core.specs.Searching.{IsBack};

use crate::hints::Hints;
use clause_store::Memory;
use sat_trail::engine::Engine;
use sat_trail::packed::Packed;

/// Takes steps back and adds the line. Where a restart is due and the line goes back to a higher place, all
/// decisions are taken back: two literals of the line are open there.
pub fn go_back(
    engine: Engine,
    hints: &mut Hints,
    is_first: &[bool],
    line: &[Packed],
    key: Packed,
    second: Packed,
    to: usize,
) -> Result<Engine, Memory>
    requires { IsLearned engine is_first.now line.now key second to }
    ensures { IfOk result (λ new. IsBack engine line.now new) }
{
    if hints.restart_is_due() {
        if let Some(lowest) = first_decision(&engine) {
            if lowest < to {
                hints.release(&engine, lowest, is_first);
                return start_again(engine, is_first, line, key, second, to, lowest);
            }
        }
    }
    hints.release(&engine, to, is_first);
    jump(engine, is_first, line, key, second, to)
}

/// Takes all steps from a lower decision on back: two literals of the line are open there.
fn start_again(
    engine: Engine,
    is_first: &[bool],
    line: &[Packed],
    key: Packed,
    second: Packed,
    to: usize,
    lowest: usize,
) -> Result<Engine, Memory>
    requires learned { IsLearned engine is_first.now line.now key second to }
    requires lower { lowest < to }
    requires decided { IsDecision engine.steps lowest }
    ensures { IfOk result (λ new. IsBack engine line.now new) }
{
    let _first = is_first.len();
    let front = engine.undo(lowest);
    let more = front.learn_open(line, key, second)?;
    Ok(more)
}

/// Takes all steps back that the line's key and the jump go over: the key is true from there on.
fn jump(
    engine: Engine,
    is_first: &[bool],
    line: &[Packed],
    key: Packed,
    second: Packed,
    to: usize,
) -> Result<Engine, Memory>
    requires { IsLearned engine is_first.now line.now key second to }
    ensures { IfOk result (λ new. IsBack engine line.now new) }
{
    let _first = is_first.len();
    let front = engine.undo(to);
    let more = front.learn_unit(line, key, second)?;
    Ok(more)
}

/// The place of the first decision.
fn first_decision(engine: &Engine) -> Option<usize>
    ensures { IfSome result (λ at. IsDecision engine.now.steps at) }
{
    for at in 0..engine.len() {
        if engine.step(at).reason.is_none() {
            return Some(at);
        }
    }
    None
}
