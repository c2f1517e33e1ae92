//! An engine of the clauses of a store and the lines of a derivation.
ghost use Rattle.std.specs.Prelude.{◌≡◌, ◌<◌, ◌≤◌, ◌^◌, ◌++◌, [], length, All, Contains, IfOk, OnOk};
ghost use Rattle.clause_store.specs.Formula.{IsKnown};
ghost use Rattle.sat_trail.specs.Engines.{IsLoaded};
ghost use Rattle.sat_trail.specs.Loading.{IsAdded, IsAllAdded, IsChosen, IsSecond};

use crate::engine::Engine;
use crate::index::Index;
use crate::packed::Packed;
use crate::watcher::Pair;
use bumpalo::Bump;
use clause_store::Memory;
use clause_store::derivation::Derivation;
use clause_store::lit::Lit;
use clause_store::store::ClauseStore;
use std::alloc::Global;

/// Variables are numbered in 31 bits.
const MOST_VARS: u64 = 0x8000_0000;

/// An engine of these clauses and lines; none where nothing can make all of them true. Too many variables are want of memory.
pub fn load<'a>(
    alloc: Global,
    clauses: &ClauseStore<'a>,
    lines: &Derivation,
) -> Result<Option<Engine>, Memory>
    requires { All (IsKnown clauses.now.vars) lines.now }
    ensures { IfOk result (λ engine. IsLoaded clauses.now.vars (clauses.now.clauses ++ lines.now) engine) }
{
    let vars = clauses.vars();
    if MOST_VARS <= vars {
        return Err(Memory);
    }
    let mut packed = Vec::new(alloc);
    let index = Index::new(alloc, vars as usize)?;
    let Some(index) = add_clauses(index, &mut packed, clauses)? else {
        return Ok(None);
    };
    let Some(index) = add_lines(index, &mut packed, lines)? else {
        return Ok(None);
    };
    Engine::start(alloc, index)
}

/// Writes a clause's literals, packed, in place of what the vector holds.
pub fn pack(packed: &mut Vec<Packed>, clause: &[Lit]) -> Result<(), Memory>
    requires { IsKnown (2 ^ 31) clause.now }
    ensures { OnOk result (packed.new.items ≡ clause.now) }
{
    packed.clear();
    for lit in clause {
        packed.push(Packed::new(*lit))?;
    }
    Ok(())
}

fn add_clauses<'a>(
    index: Index,
    packed: &mut Vec<Packed>,
    clauses: &ClauseStore<'a>,
) -> Result<Option<Index>, Memory>
    requires { index.vars ≡ clauses.now.vars }
    ensures { IfOk result (λ more. IsAllAdded index clauses.now.clauses more) }
{
    let mut index = index;
    let _vars = clauses.vars();
    for at in 0..clauses.len() {
        let Some(more) = add_clause(index, packed, clauses.clause(at))? else {
            return Ok(None);
        };
        index = more;
    }
    Ok(Some(index))
}

fn add_lines(
    index: Index,
    packed: &mut Vec<Packed>,
    lines: &Derivation,
) -> Result<Option<Index>, Memory>
    requires { All (IsKnown index.vars) lines.now }
    ensures { IfOk result (λ more. IsAllAdded index lines.now more) }
{
    let mut index = index;
    for at in 0..lines.len() {
        let Some(more) = add_clause(index, packed, lines.line(at))? else {
            return Ok(None);
        };
        index = more;
    }
    Ok(Some(index))
}

/// Adds a clause; none where it is empty.
fn add_clause(
    index: Index,
    packed: &mut Vec<Packed>,
    clause: &[Lit],
) -> Result<Option<Index>, Memory>
    requires { IsKnown index.vars clause.now }
    ensures { IfOk result (λ more. IsAdded index clause.now more) }
{
    let _clauses = index.len();
    pack(packed, clause)?;
    let literals = packed.as_slice();
    let Some(pair) = choose_pair(literals) else {
        return Ok(None);
    };
    let Pair { one, two } = pair;
    let index = index.add(literals, one, two)?;
    Ok(Some(index))
}

/// Two literals of a clause to watch; none where it is empty.
fn choose_pair(clause: &[Packed]) -> Option<Pair>
    ensures { IsChosen clause.now result }
{
    if clause.is_empty() {
        return None;
    }
    let one = clause[0];
    let two = second_of(clause, one);
    Some(Pair { one, two })
}

/// The first literal of a clause that differs from this one of it, or this one.
pub fn second_of(clause: &[Packed], one: Packed) -> Packed
    requires { Contains clause.now one }
    ensures { IsSecond clause.now one result }
{
    for lit in clause {
        if !lit.is(one) {
            return *lit;
        }
    }
    one
}
