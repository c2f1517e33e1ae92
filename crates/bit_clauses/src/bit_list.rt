//! The literals of a term.
ghost use Rattle.clause_store.specs.declared.lit.Lit.{Lit};
ghost use Rattle.std.specs.Prelude.{◌≡◌, ◌<◌, ◌≤◌, [], ◌∷◌, ◌++◌, length, drop, take, slice_index_or, is_ok, if◌then◌else◌, IfOk};

use clause_store::lit::Lit;
use odr_list::memory::Memory;
use smallvec::SmallVec;
use std::alloc::Global;
use std::marker::Model;

/// How many literals are kept in place.
const IN_PLACE: usize = 32;

/// Literals, the one of the lowest bit first. Contracts see the list of them.
#[derive(Drop)]
pub struct BitList {
    bits: SmallVec<Lit, IN_PLACE>,
}

impl Model for BitList {
    ghost use Rattle.std.specs.Prelude.{List};
    ghost use Rattle.clause_store.specs.declared.lit.Lit.{Lit};

    ghost Value = { List Lit };

    ghost view = { λ l. l.bits.items };
}

impl BitList {
    /// No literal. Takes no memory.
    pub fn new(alloc: Global) -> BitList
        ensures { result ≡ [] }
    {
        BitList {
            bits: SmallVec::new(alloc),
        }
    }

    /// A copy of a slice.
    pub fn of(alloc: Global, lits: &[Lit]) -> Result<BitList, Memory>
        ensures { IfOk result (λ l. l ≡ lits.now) }
    {
        let bits = SmallVec::from_slice(alloc, lits)?;
        Ok(BitList { bits })
    }

    /// Appends a literal; want of memory leaves the list as it was.
    pub fn push(&mut self, lit: Lit) -> Result<(), Memory>
        ensures { self.new ≡ (if is_ok result then self.old ++ lit ∷ [] else self.old) }
    {
        self.bits.push(lit)?;
        Ok(())
    }

    /// Appends literals; want of memory leaves the list as it was.
    pub fn append(&mut self, lits: &[Lit]) -> Result<(), Memory>
        ensures { self.new ≡ (if is_ok result then self.old ++ lits.now else self.old) }
    {
        self.bits.extend_from_slice(lits)?;
        Ok(())
    }

    /// Puts a literal below the others; want of memory leaves the list as it was.
    pub fn push_lowest(&mut self, lit: Lit) -> Result<(), Memory>
        ensures { self.new ≡ (if is_ok result then lit ∷ self.old else self.old) }
    {
        self.bits.insert(0, lit)?;
        Ok(())
    }

    /// The literals.
    pub fn as_slice(&self) -> &[Lit]
        ensures { result.now ≡ self.now }
    {
        self.bits.as_slice()
    }

    /// The literal of a bit.
    pub fn bit(&self, at: usize) -> Lit
        requires { at < length self.now }
        ensures { (d : Lit) → result ≡ slice_index_or self.now at d }
    {
        self.bits[at]
    }

    /// The literals above the lowest one.
    pub fn higher(&self, alloc: Global) -> Result<BitList, Memory>
        requires { 0 < length self.now }
        ensures { IfOk result (λ l. l ≡ drop 1 self.now) }
    {
        BitList::of(alloc, &self.bits.as_slice()[1..])
    }

    /// The lowest literals.
    pub fn lower(&self, alloc: Global, count: usize) -> Result<BitList, Memory>
        requires { count ≤ length self.now }
        ensures { IfOk result (λ l. l ≡ take count self.now) }
    {
        BitList::of(alloc, &self.bits.as_slice()[..count])
    }

    /// The number of literals.
    pub fn len(&self) -> usize
        ensures { result ≡ length self.now }
    {
        self.bits.len()
    }
}
