//! Up to 64 variables, a bit for each: all assignments are tried, and the unit rule scans all clauses again and again.

use clause_check::verdict::Verdict;
use clause_store::derivation::Derivation;
use clause_store::lit::Lit;
use clause_store::store::ClauseStore;

/// A set of literals; as an assumption, those that are true.
#[derive(Clone, Copy, Debug, PartialEq, Eq)]
pub struct Literals {
    positive: u64,
    negative: u64,
}

impl Literals {
    fn none() -> Literals {
        Literals {
            positive: 0,
            negative: 0,
        }
    }

    /// An assignment by its bits.
    fn assignment(bits: u64) -> Literals {
        Literals {
            positive: bits,
            negative: !bits,
        }
    }

    fn has(self, lit: Lit) -> bool {
        let bits = if lit.positive {
            self.positive
        } else {
            self.negative
        };
        bits >> (lit.var % 64) & 1 == 1
    }

    fn with(self, lit: Lit) -> Literals {
        let bit = 1 << (lit.var % 64);
        if lit.positive {
            Literals {
                positive: self.positive | bit,
                negative: self.negative,
            }
        } else {
            Literals {
                positive: self.positive,
                negative: self.negative | bit,
            }
        }
    }
}

/// The set of a line's literals.
pub fn set_of(line: &[Lit]) -> Literals {
    let mut set = Literals::none();
    for lit in line {
        set = set.with(*lit);
    }
    set
}

/// What is true where all literals of a line are false.
fn denied(line: &[Lit]) -> Literals {
    let mut set = Literals::none();
    for lit in line {
        set = set.with(lit.opposite());
    }
    set
}

fn is_satisfied(clause: &[Lit], values: Literals) -> bool {
    for lit in clause {
        if values.has(*lit) {
            return true;
        }
    }
    false
}

/// The literals of a clause that may still be true.
fn open(clause: &[Lit], values: Literals) -> Literals {
    let mut set = Literals::none();
    for lit in clause {
        if !values.has(lit.opposite()) {
            set = set.with(*lit);
        }
    }
    set
}

/// The values with what a clause forces; none where it is false.
fn after(clause: &[Lit], values: Literals) -> Option<Literals> {
    if is_satisfied(clause, values) {
        return Some(values);
    }
    let left = open(clause, values);
    match left.positive.count_ones() + left.negative.count_ones() {
        0 => None,
        1 => Some(Literals {
            positive: values.positive | left.positive,
            negative: values.negative | left.negative,
        }),
        _ => Some(values),
    }
}

fn after_clauses(store: &ClauseStore<'_>, values: Literals) -> Option<Literals> {
    let mut values = values;
    for at in 0..store.len() {
        values = after(store.clause(at), values)?;
    }
    Some(values)
}

/// After the lines before one.
fn after_lines(lines: &Derivation, number: usize, values: Literals) -> Option<Literals> {
    let mut values = values;
    for at in 0..lines.len() {
        if at < number {
            values = after(lines.line(at), values)?;
        }
    }
    Some(values)
}

fn after_all(
    store: &ClauseStore<'_>,
    lines: &Derivation,
    number: usize,
    values: Literals,
) -> Option<Literals> {
    after_lines(lines, number, after_clauses(store, values)?)
}

/// Whether a line follows from the clauses and the lines of lower number: each scan but the last forces a literal.
fn follows(store: &ClauseStore<'_>, lines: &Derivation, number: usize, line: &[Lit]) -> bool {
    let mut values = denied(line);
    for _scan in 0..=64 {
        match after_all(store, lines, number, values) {
            None => return true,
            Some(more) => values = more,
        }
    }
    false
}

/// The verdict on a derivation.
pub fn verdict_of(store: &ClauseStore<'_>, lines: &Derivation) -> Verdict {
    let mut is_empty = false;
    for at in 0..lines.len() {
        let line = lines.line(at);
        if !follows(store, lines, at, line) {
            return Verdict::Fails {
                line: at as u64 + 1,
            };
        }
        is_empty = line.is_empty();
    }
    if is_empty {
        Verdict::Refuted
    } else {
        Verdict::Holds {
            lines: lines.len() as u64,
        }
    }
}

fn is_model(store: &ClauseStore<'_>, values: Literals) -> bool {
    for at in 0..store.len() {
        if !is_satisfied(store.clause(at), values) {
            return false;
        }
    }
    true
}

/// Whether the values, one for each variable, satisfy the clauses.
pub fn satisfies(store: &ClauseStore<'_>, values: &[bool]) -> bool {
    let mut set = Literals::none();
    for (at, positive) in values.iter().enumerate() {
        set = set.with(Lit {
            var: at as u64,
            positive: *positive,
        });
    }
    is_model(store, set)
}

/// Whether one of all assignments of ten variables satisfies the clauses.
pub fn has_model(store: &ClauseStore<'_>) -> bool {
    for bits in 0..1024 {
        if is_model(store, Literals::assignment(bits)) {
            return true;
        }
    }
    false
}
