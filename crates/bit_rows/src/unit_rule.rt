//! What the unit rule gives from clauses, found by going through them again and again.

use clause_store::lit::Lit;
use clause_store::store::ClauseStore;
use std::alloc::Global;
use std::process::Abort;
use std::test::Fail;

/// How often the clauses are gone through at most. A circuit's clauses come in the order of its gates, so the first time
/// gives all and the second gives nothing.
const ROUNDS: usize = 3;

/// What a clause comes to under the values so far.
enum Finding {
    /// It is true, or has two open literals.
    Rests,
    /// Only this literal is open, and the others are false.
    Gives(Lit),
    /// All literals are false.
    Fails,
}

fn value_of(values: &[Option<bool>], lit: Lit) -> Option<bool> {
    let value = *values.get(lit.var as usize)?;
    match value {
        Some(value) => Some(value == lit.positive),
        None => None,
    }
}

fn look(clause: &[Lit], values: &[Option<bool>]) -> Finding {
    let mut open = None;
    for lit in clause {
        match (value_of(values, *lit), open) {
            (Some(true), _) => return Finding::Rests,
            (Some(false), _) => {}
            (None, Some(_)) => return Finding::Rests,
            (None, None) => open = Some(*lit),
        }
    }
    match open {
        Some(lit) => Finding::Gives(lit),
        None => Finding::Fails,
    }
}

/// Goes through the clauses from one on, and tells whether a literal was given.
fn go_through(
    rt: &impl Abort,
    clauses: &ClauseStore<'_>,
    from: usize,
    values: &mut [Option<bool>],
) -> bool {
    let mut given = false;
    for i in from..clauses.len() {
        match look(clauses.clause(i), values) {
            Finding::Rests => {}
            Finding::Gives(lit) => {
                if let Some(value) = values.get_mut(lit.var as usize) {
                    *value = Some(lit.positive);
                }
                given = true;
            }
            Finding::Fails => assert!(rt; false, "clause {i} is false"),
        }
    }
    given
}

/// The values of the variables once the rule has nothing left to do; each has one. The unit clauses stand from one clause
/// on.
pub fn settled(
    rt: &impl Abort,
    alloc: Global,
    clauses: &ClauseStore<'_>,
    units: usize,
) -> Result<Vec<Option<bool>>, Fail> {
    let mut values = Vec::new(alloc);
    for _ in 0..clauses.vars() {
        values.push(None)?;
    }
    go_through(rt, clauses, units, values.as_mut_slice());
    for _ in 0..ROUNDS {
        if !go_through(rt, clauses, 0, values.as_mut_slice()) {
            for value in &values {
                assert!(rt; value.is_some(), "an open variable");
            }
            return Ok(values);
        }
    }
    Err("the rule has more to do".into())
}

/// The number whose binary digits are the literals' values, the lowest first, if all have values.
pub fn number_of(values: &[Option<bool>], lits: &[Lit]) -> Option<u64> {
    let mut number = 0u64;
    for lit in lits.iter().rev() {
        let digit = value_of(values, *lit)?;
        number = number.wrapping_mul(2).wrapping_add(u64::from(digit));
    }
    Some(number)
}
