//! Literals turned round, and one literal many times: no gate is needed.
ghost use Rattle.std.specs.Prelude.{◌≡◌, map, replicate, IfOk};
ghost use Rattle.clause_store.specs.Literals.{opposite};

use crate::bit_list::BitList;
use clause_store::lit::Lit;
use odr_list::memory::Memory;
use std::alloc::Global;

/// The opposite of each literal.
pub fn flipped(alloc: Global, lits: &[Lit]) -> Result<BitList, Memory>
    ensures { IfOk result (λ bits. bits ≡ map opposite lits.now) }
{
    let mut bits = BitList::new(alloc);
    for lit in lits {
        bits.push(lit.opposite())?;
    }
    Ok(bits)
}

/// A literal so many times.
pub fn repeated(alloc: Global, lit: Lit, count: usize) -> Result<BitList, Memory>
    ensures { IfOk result (λ bits. bits ≡ replicate count lit) }
{
    let mut bits = BitList::new(alloc);
    while bits.len() < count {
        bits.push(lit)?;
    }
    Ok(bits)
}
