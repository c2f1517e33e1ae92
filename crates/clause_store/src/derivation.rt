ghost use Rattle.std.specs.Prelude.{◌≡◌, ◌<◌, Some, [], ◌∷◌, ◌++◌, length, slice_get, is_ok, if◌then◌else◌};

use crate::lit::Lit;
use odr_list::memory::Memory;
use std::alloc::Global;
use std::marker::Model;

/// Lines, each a clause, seen by contracts as their list.
#[derive(Drop)]
pub struct Derivation {
    lines: Vec<Vec<Lit>>,
}

impl Model for Derivation {
    ghost use Rattle.std.specs.Prelude.{List, map};
    ghost use Rattle.clause_store.specs.declared.lit.Lit.{Lit};

    ghost Value = { List (List Lit) };

    ghost view = { λ d. map (λ l. l.items) d.lines.items };
}

impl Derivation {
    /// No line. Takes no memory.
    pub fn new(alloc: Global) -> Derivation
        ensures { result ≡ [] }
    {
        Derivation {
            lines: Vec::new(alloc),
        }
    }

    /// Appends a line.
    pub fn push(&mut self, lits: &[Lit]) -> Result<(), Memory>
        ensures { self.new ≡ (if is_ok result then self.old ++ lits.now ∷ [] else self.old) }
    {
        let line = lits.to_vec(*self.lines.allocator())?;
        self.lines.push(line)?;
        Ok(())
    }

    /// The number of lines.
    pub fn len(&self) -> usize
        ensures { result ≡ length self.now }
    {
        self.lines.len()
    }

    /// The line of a number, from 0.
    pub fn line(&self, i: usize) -> &[Lit]
        requires { i < length self.now }
        ensures { slice_get self.now i ≡ Some result.now }
    {
        self.lines[i].as_slice()
    }
}
