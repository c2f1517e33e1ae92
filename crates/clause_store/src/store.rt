ghost use Rattle.std.specs.Prelude.{◌≡◌, ◌+◌, ◌<◌, Some, [], ◌∷◌, ◌++◌, length, slice_get, IfOk, OnOk, OnErr};
ghost use Rattle.clause_store.specs.Formula.{IsKnown, AllKnown};

use crate::lit::Lit;
use bumpalo::Bump;
use odr_list::memory::Memory;
use std::alloc::Global;
use std::marker::Model;

/// Clauses over numbered variables, seen by contracts as the number of variables and the list of the clauses.
/// Each clause is a slice of the arena, so none can be used once the arena is reset.
#[derive(Drop)]
pub struct ClauseStore<'a> {
    arena: &'a Bump,
    // One entry for each variable: a list's length can't wrap, as a count could.
    variables: Vec<()>,
    clauses: Vec<&'a [Lit]>,
}

impl<'a> Model for ClauseStore<'a> {
    ghost use Rattle.std.specs.Prelude.{map, All, vec_len};
    ghost use Rattle.clause_store.specs.Formula.{Formula, IsKnown};

    ghost Value = { Formula };

    ghost view = { λ s. record { vars = vec_len s.variables; clauses = map (λ c. c.now) s.clauses.items } };

    ghost invariant = { λ s. All (IsKnown (vec_len s.variables)) (map (λ c. c.now) s.clauses.items) };
}

impl<'a> ClauseStore<'a> {
    /// No variable and no clause. Takes no memory.
    pub fn new(alloc: Global, arena: &'a Bump) -> ClauseStore<'a>
        ensures { result ≡ record { vars = 0; clauses = [] } }
    {
        ClauseStore {
            arena,
            variables: Vec::new(alloc),
            clauses: Vec::new(alloc),
        }
    }

    /// Makes a new variable and gives its number, that of the variables before.
    pub fn fresh(&mut self) -> Result<u64, Memory>
        ensures number { IfOk result (λ var. var ≡ self.old.vars) }
        ensures ok { OnOk result (self.new ≡ record self.old { vars = self.old.vars + 1 }) }
        ensures err { OnErr result (self.new ≡ self.old) }
        ensures known { AllKnown self.old }
    {
        let var = self.variables.len() as u64;
        self.variables.push(())?;
        Ok(var)
    }

    /// Appends a clause.
    pub fn add(&mut self, lits: &[Lit]) -> Result<(), Memory>
        requires { IsKnown self.old.vars lits.now }
        ensures ok { OnOk result (self.new ≡ record self.old { clauses = self.old.clauses ++ lits.now ∷ [] }) }
        ensures err { OnErr result (self.new ≡ self.old) }
    {
        let clause = self.arena.try_alloc_slice_copy(lits)?;
        self.clauses.push(clause)?;
        Ok(())
    }

    /// The clause of a number, from 0.
    pub fn clause(&self, i: usize) -> &'a [Lit]
        requires { i < length self.now.clauses }
        ensures { slice_get self.now.clauses i ≡ Some result.now }
    {
        self.clauses[i]
    }

    /// The number of clauses.
    pub fn len(&self) -> usize
        ensures { result ≡ length self.now.clauses }
    {
        self.clauses.len()
    }

    /// The number of variables.
    pub fn vars(&self) -> u64
        ensures number { result ≡ self.now.vars }
        ensures known { AllKnown self.now }
    {
        self.variables.len() as u64
    }
}
