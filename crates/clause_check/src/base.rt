//! What clauses and lines give without assumption: the state in which each line is tried.
ghost use Rattle.std.specs.Prelude.{◌≡◌, ◌<◌, ◌∷◌, ◌++◌, Some, None, [], false, IfOk};
ghost use Rattle.clause_store.specs.Formula.{IsKnown};
ghost use Rattle.sat_trail.specs.Paths.{NoDecision, value_in};
ghost use Rattle.clause_check.specs.Bases.{IsBaseOf, IsBeside, IsCalm, IsFirstOpen, IsOpenOf, TellsBeside, TellsHeld, TellsOpen, TellsTrue};

use bumpalo::Bump;
use clause_store::Memory;
use clause_store::derivation::Derivation;
use clause_store::store::ClauseStore;
use sat_trail::engine::Engine;
use sat_trail::load::{load, second_of};
use sat_trail::packed::Packed;
use sat_trail::truth::Truth;
use std::alloc::Global;

/// What the clauses give without assumption; none where they refute themselves.
pub fn start<'a>(alloc: Global, clauses: &ClauseStore<'a>) -> Result<Option<Engine>, Memory>
    ensures { IfOk result (λ base. IsBaseOf clauses.now.vars clauses.now.clauses base) }
{
    let lines = Derivation::new(alloc);
    match load(alloc, clauses, &lines)? {
        Some(engine) => settle(engine),
        None => Ok(None),
    }
}

/// What a further line gives; none where nothing is at rest with it.
pub fn add_line(engine: Engine, line: &[Packed]) -> Result<Option<Engine>, Memory>
    requires calm { IsCalm engine }
    requires known { IsKnown engine.vars line.now }
    ensures { IfOk result (λ base. IsBaseOf engine.vars (engine.clauses ++ line.now ∷ []) base) }
{
    let _steps = engine.len();
    // Steps that are never taken back make it true: it can force nothing.
    if is_held(&engine, line) {
        return Ok(Some(engine));
    }
    let Some(key) = first_open(&engine, line) else {
        return Ok(None);
    };
    match open_beside(&engine, line, key) {
        Some(second) => add_open(engine, line, key, second),
        None => add_unit(engine, line, key),
    }
}

/// Adds a line of which two literals are open.
fn add_open(
    engine: Engine,
    line: &[Packed],
    key: Packed,
    second: Packed,
) -> Result<Option<Engine>, Memory>
    requires calm { IsCalm engine }
    requires known { IsKnown engine.vars line.now }
    requires open { IsOpenOf engine.steps line.now key }
    requires beside { IsBeside engine.steps line.now key (Some second) }
    ensures { IfOk result (λ base. IsBaseOf engine.vars (engine.clauses ++ line.now ∷ []) base) }
{
    let more = engine.learn_open(line, key, second)?;
    Ok(Some(more))
}

/// Adds a line with one literal that isn't false, which becomes true.
fn add_unit(engine: Engine, line: &[Packed], key: Packed) -> Result<Option<Engine>, Memory>
    requires calm { IsCalm engine }
    requires known { IsKnown engine.vars line.now }
    requires unheld { TellsHeld (value_in engine.steps) line.now false }
    requires open { IsOpenOf engine.steps line.now key }
    requires beside { IsBeside engine.steps line.now key None }
    ensures { IfOk result (λ base. IsBaseOf engine.vars (engine.clauses ++ line.now ∷ []) base) }
{
    let second = second_of(line, key);
    let more = engine.learn_unit(line, key, second)?;
    settle(more)
}

/// Applies the rule; none where a clause is false then.
fn settle(engine: Engine) -> Result<Option<Engine>, Memory>
    requires { NoDecision engine.steps }
    ensures { IfOk result (λ base. IsBaseOf engine.vars engine.clauses base) }
{
    let (next, clash) = engine.propagate()?;
    let _steps = next.len();
    if clash.is_some() {
        return Ok(None);
    }
    Ok(Some(next))
}

/// Whether some literal of the line is true.
fn is_held(engine: &Engine, line: &[Packed]) -> bool
    requires { IsKnown engine.now.vars line.now }
    ensures { TellsHeld (value_in engine.now.steps) line.now result }
{
    for lit in line {
        if is_true(engine, *lit) {
            return true;
        }
    }
    false
}

/// The first open literal of a line.
fn first_open(engine: &Engine, line: &[Packed]) -> Option<Packed>
    requires { IsKnown engine.now.vars line.now }
    ensures { IsFirstOpen engine.now.steps line.now result }
{
    for lit in line {
        if is_open(engine, *lit) {
            return Some(*lit);
        }
    }
    None
}

/// An open literal of the line that differs from this one.
fn open_beside(engine: &Engine, line: &[Packed], key: Packed) -> Option<Packed>
    requires { IsKnown engine.now.vars line.now }
    ensures { IsBeside engine.now.steps line.now key result }
{
    for lit in line {
        if is_open_beside(engine, *lit, key) {
            return Some(*lit);
        }
    }
    None
}

fn is_true(engine: &Engine, lit: Packed) -> bool
    requires { lit.var < engine.now.vars }
    ensures { TellsTrue (value_in engine.now.steps) lit result }
{
    match engine.truth(lit) {
        Truth::True => true,
        Truth::False => false,
        Truth::Open => false,
    }
}

fn is_open(engine: &Engine, lit: Packed) -> bool
    requires { lit.var < engine.now.vars }
    ensures { TellsOpen (value_in engine.now.steps) lit result }
{
    match engine.truth(lit) {
        Truth::Open => true,
        Truth::True => false,
        Truth::False => false,
    }
}

/// Whether a literal is open, and isn't this one.
fn is_open_beside(engine: &Engine, lit: Packed, key: Packed) -> bool
    requires { lit.var < engine.now.vars }
    ensures { TellsBeside (value_in engine.now.steps) lit key result }
{
    match engine.truth(lit) {
        Truth::Open => !lit.is(key),
        Truth::True => false,
        Truth::False => false,
    }
}
