ghost use Rattle.std.specs.Prelude.{◌≡◌};

use clause_store::derivation::Derivation;
use std::marker::Model;

/// A truth value for each variable, seen by contracts as their list.
#[derive(Drop)]
pub struct Assignment {
    values: Vec<bool>,
}

impl Model for Assignment {
    ghost use Rattle.std.specs.Prelude.{List, Bool};

    ghost Value = { List Bool };

    ghost view = { λ a. a.values.items };
}

impl Assignment {
    /// The assignment of these values. Takes no memory.
    pub fn of(values: Vec<bool>) -> Assignment
        ensures { result ≡ values.items }
    {
        Assignment { values }
    }

    /// The truth values, one for each variable. Takes no memory.
    pub fn as_slice(&self) -> &[bool]
        ensures { result.now ≡ self.now }
    {
        self.values.as_slice()
    }
}

/// What a search ends with.
#[derive(Drop)]
pub enum Answer {
    /// An assignment that satisfies every clause.
    Model(Assignment),
    /// A derivation whose last line is the empty one, of no more lines than the budget.
    Refuted(Derivation),
    /// A derivation of as many lines as the budget, none of them empty.
    Spent(Derivation),
}
