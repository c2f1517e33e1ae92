//! The verdict on a whole derivation.
ghost use Rattle.std.specs.Prelude.{◌≡◌, ◌↔◌, All, IfOk, IsTrue};
ghost use Rattle.clause_store.specs.Formula.{IsKnown};
ghost use Rattle.clause_check.specs.Verdicts.{CantBeSatisfied, EndsEmpty, IsGap, IsVerdict};

use crate::base::{add_line, start};
use crate::trial::follows;
use bumpalo::Bump;
use clause_store::Memory;
use clause_store::derivation::Derivation;
use clause_store::store::ClauseStore;
use sat_trail::load::pack;
use std::alloc::Global;

/// What a derivation is found to be.
#[derive(Clone, Copy, Debug, PartialEq, Eq)]
pub enum Verdict {
    /// All lines follow, and the last one is empty: no assignment satisfies the clauses.
    Refuted,
    /// All lines follow, and the last one isn't empty, or there is none.
    Holds {
        /// How many lines there are.
        lines: u64,
    },
    /// A line doesn't follow.
    Fails {
        /// The number of the first such line, from 1.
        line: u64,
    },
}

/// Tells whether each line follows by the unit rule from the clauses and the lines before it, and else the first
/// that doesn't. Lines after an empty one follow. 2^31 variables, or as many clauses and lines, are want of memory.
pub fn check<'a>(
    alloc: Global,
    clauses: &ClauseStore<'a>,
    lines: &Derivation,
) -> Result<Verdict, Memory>
    requires { All (IsKnown clauses.now.vars) lines.now }
    ensures verdict { IfOk result (λ verdict. IsVerdict clauses.now.clauses lines.now verdict) }
    ensures refutes { IfOk result (λ verdict. verdict ≡ Verdict.Refuted → CantBeSatisfied clauses.now.clauses) }
{
    let gap = first_gap(alloc, clauses, lines)?;
    Ok(verdict_of(clauses, lines, gap))
}

/// The verdict on lines with this first gap. The clauses are read by the contract alone.
fn verdict_of<'a>(clauses: &ClauseStore<'a>, lines: &Derivation, gap: Option<usize>) -> Verdict
    requires { IsGap clauses.now.clauses lines.now gap }
    ensures { IsVerdict clauses.now.clauses lines.now result }
{
    let _clauses = clauses.len();
    let count = lines.len() as u64;
    match gap {
        Some(at) => Verdict::Fails {
            line: at as u64 + 1,
        },
        None => {
            if ends_empty(lines) {
                Verdict::Refuted
            } else {
                Verdict::Holds { lines: count }
            }
        }
    }
}

/// The number, from 0, of the first line that doesn't follow.
fn first_gap<'a>(
    alloc: Global,
    clauses: &ClauseStore<'a>,
    lines: &Derivation,
) -> Result<Option<usize>, Memory>
    requires { All (IsKnown clauses.now.vars) lines.now }
    ensures { IfOk result (λ gap. IsGap clauses.now.clauses lines.now gap) }
{
    let mut packed = Vec::new(alloc);
    let Some(engine) = start(alloc, clauses)? else {
        return Ok(None);
    };
    let mut base = engine;
    for at in 0..lines.len() {
        let _vars = base.vars();
        pack(&mut packed, lines.line(at))?;
        let line = packed.as_slice();
        let (tried, good) = follows(base, line)?;
        if !good {
            return Ok(Some(at));
        }
        // Where the line leaves nothing at rest, all that comes after it follows.
        let Some(next) = add_line(tried, line)? else {
            return Ok(None);
        };
        base = next;
    }
    Ok(None)
}

/// Whether there is a last line, and it is empty.
fn ends_empty(lines: &Derivation) -> bool
    ensures { IsTrue result ↔ EndsEmpty lines.now }
{
    let count = lines.len();
    if count == 0 {
        return false;
    }
    lines.line(count - 1).is_empty()
}
