//! Whether a line follows: its literals are made false one after the other, and the rule is applied after each, so
//! that each assumption is made where the rule has nothing left to do.
ghost use Rattle.std.specs.Prelude.{◌≡◌, ◌⊎◌, ◌↔◌, ◌<◌, ◌≤◌, None, length, IfOk, IsTrue};
ghost use Rattle.clause_store.specs.Formula.{IsKnown};
ghost use Rattle.clause_store.specs.UnitRule.{Follows};
ghost use Rattle.sat_trail.specs.Paths.{IsDecision};
ghost use Rattle.sat_trail.specs.Engines.{IsSettled};
ghost use Rattle.clause_check.specs.Bases.{IsCalm};
ghost use Rattle.clause_check.specs.Trials.{IsAssumed, IsTakenBack, IsTried};

use clause_store::Memory;
use sat_trail::engine::Engine;
use sat_trail::packed::Packed;
use sat_trail::truth::Truth;

/// Whether a line follows from the engine's clauses, and the engine as it was.
pub fn follows(engine: Engine, line: &[Packed]) -> Result<(Engine, bool), Memory>
    requires calm { IsCalm engine }
    requires known { IsKnown engine.vars line.now }
    ensures same { IfOk result (λ ended. ended.0 ≡ engine) }
    ensures exact { IfOk result (λ ended. IsTrue ended.1 ↔ Follows engine.clauses line.now) }
{
    let count = engine.len();
    let (tried, closed) = assume_false(engine, line)?;
    let base = take_back(tried, count);
    Ok((base, closed))
}

/// Makes the line's literals false, up to the first at which a clause is false or a literal of the line true.
fn assume_false(engine: Engine, line: &[Packed]) -> Result<(Engine, bool), Memory>
    requires calm { IsCalm engine }
    requires known { IsKnown engine.vars line.now }
    ensures { IfOk result (λ ended. IsTried engine line.now ended.0 ended.1) }
{
    let mut tried = engine;
    for lit in line {
        let (next, closed) = assume_one(tried, *lit)?;
        let _steps = next.len();
        if closed {
            return Ok((next, true));
        }
        tried = next;
    }
    Ok((tried, false))
}

/// Makes one literal false; whether a clause is false then, or the literal is true already.
fn assume_one(engine: Engine, lit: Packed) -> Result<(Engine, bool), Memory>
    requires known { lit.var < engine.vars }
    requires settled { IsSettled engine None }
    ensures { IfOk result (λ ended. IsAssumed engine lit ended.0 ended.1) }
{
    match engine.truth(lit) {
        Truth::False => Ok((engine, false)),
        Truth::True => Ok((engine, true)),
        Truth::Open => {
            let decided = engine.decide(lit.opposite())?;
            let (next, clash) = decided.propagate()?;
            Ok((next, clash.is_some()))
        }
    }
}

/// Takes all steps but the first ones back.
fn take_back(engine: Engine, to: usize) -> Engine
    requires { (length engine.steps ≤ to) ⊎ IsDecision engine.steps to }
    ensures { IsTakenBack engine to result }
{
    if to < engine.len() {
        engine.undo(to)
    } else {
        engine
    }
}
