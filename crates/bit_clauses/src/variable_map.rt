//! The variables of terms that have literals, found by width and number.
ghost use Rattle.std.specs.Prelude.{◌≡◌, ◌++◌, ◌∷◌, [], None, is_ok, if◌then◌else◌};
ghost use Rattle.bit_clauses.specs.Bits.{first_of};

use crate::variables::Variable;
use indexmap::IndexMap;
use odr_list::memory::Memory;
use std::alloc::Global;
use std::marker::Model;

/// What names a variable of terms.
#[derive(Clone, Copy, Debug, PartialEq, Eq, Hash)]
pub struct VariableName {
    pub width: u8,
    pub number: u32,
}

/// Variables with their lowest bits, seen by contracts as a list. A look-up takes constant expected time.
#[derive(Drop)]
pub struct VariableMap {
    firsts: IndexMap<VariableName, u64>,
}

impl Model for VariableMap {
    ghost use Rattle.std.specs.Prelude.{List};
    ghost use Rattle.bit_clauses.specs.declared.variables.Variable.{Variable};
    ghost use Rattle.bit_clauses.specs.Named.{named};

    ghost Value = { List Variable };

    ghost view = { λ m. named m.firsts.entries };
}

impl VariableMap {
    /// No variable. Takes no memory.
    pub fn new(alloc: Global) -> VariableMap
        ensures { result ≡ [] }
    {
        VariableMap {
            firsts: IndexMap::new(alloc),
        }
    }

    /// The lowest bit of a variable, if it has literals. Takes no memory.
    pub fn first(&self, width: u8, number: u32) -> Option<u64>
        ensures { result ≡ first_of self.now width number }
    {
        self.firsts.get(&VariableName { width, number }).copied()
    }

    /// Adds a variable that isn't there.
    pub fn push(&mut self, variable: Variable) -> Result<(), Memory>
        requires { first_of self.old variable.width variable.number ≡ None }
        ensures { self.new ≡ (if is_ok result then self.old ++ variable ∷ [] else self.old) }
    {
        let Variable {
            width,
            number,
            first,
        } = variable;
        self.firsts.insert(VariableName { width, number }, first)?;
        Ok(())
    }
}
