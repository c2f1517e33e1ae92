//! Decisions, each followed by the unit rule, until a clause is false or all is decided.
ghost use Rattle.std.specs.Prelude.{◌≡◌, ◌<◌, ◌+◌, Some, None, length, All, IfOk};
ghost use Rattle.sat_trail.specs.Engines.{IsSettled};
ghost use Rattle.sat_core.specs.Searching.{IsBottom, IsDescended, IsDescent, IsPicked, MarksFirst};

use crate::hints::Hints;
use crate::picking::pick;
use clause_store::Memory;
use clause_store::derivation::Derivation;
use clause_store::store::ClauseStore;
use sat_trail::engine::Engine;
use sat_trail::packed::Packed;

/// Decides and applies the rule until a clause is false, whose number is given, or all variables are decided. The
/// clauses and lines are those of the engine: only the contract reads them.
pub fn descend<'a>(
    engine: Engine,
    hints: &mut Hints,
    first: &[u64],
    is_first: &[bool],
    clauses: &ClauseStore<'a>,
    lines: &Derivation,
) -> Result<(Engine, Option<u32>), Memory>
    requires known { All (λ x. x < clauses.now.vars) first.now }
    requires marks { MarksFirst is_first.now first.now }
    requires descent { IsDescent clauses.now.vars clauses.now.clauses first.now lines.now engine }
    ensures descent { IfOk result (λ ended. IsDescent clauses.now.vars clauses.now.clauses first.now lines.now ended.0) }
    ensures bottom { IfOk result (λ ended. IsBottom ended.0 ended.1) }
{
    let (mut engine, mut clash) = settle(engine, first, clauses, lines)?;
    while clash.is_none() {
        let _steps = engine.len();
        let Some(lit) = pick(&engine, hints, first, is_first) else {
            return Ok((engine, None));
        };
        let decided = decide(engine, first, clauses, lines, lit)?;
        let (next, found) = settle(decided, first, clauses, lines)?;
        engine = next;
        clash = found;
    }
    Ok((engine, clash))
}

/// Applies the rule.
fn settle<'a>(
    engine: Engine,
    first: &[u64],
    clauses: &ClauseStore<'a>,
    lines: &Derivation,
) -> Result<(Engine, Option<u32>), Memory>
    requires { IsDescent clauses.now.vars clauses.now.clauses first.now lines.now engine }
    ensures { IfOk result (λ ended. IsDescended clauses.now.vars clauses.now.clauses first.now lines.now (length engine.steps) ended.0 ended.1) }
{
    let _vars = clauses.vars();
    let _lines = lines.len();
    let _first = first.len();
    let ended = engine.propagate()?;
    let (next, clash) = ended;
    let _steps = next.len();
    Ok((next, clash))
}

/// Decides an open literal.
fn decide<'a>(
    engine: Engine,
    first: &[u64],
    clauses: &ClauseStore<'a>,
    lines: &Derivation,
    lit: Packed,
) -> Result<Engine, Memory>
    requires descent { IsDescent clauses.now.vars clauses.now.clauses first.now lines.now engine }
    requires settled { IsSettled engine None }
    requires picked { IsPicked engine first.now (Some lit) }
    ensures descent { IfOk result (λ decided. IsDescent clauses.now.vars clauses.now.clauses first.now lines.now decided) }
    ensures longer { IfOk result (λ decided. length decided.steps ≡ length engine.steps + 1) }
{
    let _vars = clauses.vars();
    let _lines = lines.len();
    let _first = first.len();
    let decided = engine.decide(lit)?;
    Ok(decided)
}
