//! Clauses that make bits the same: those of a reader whose source is fixed.
ghost use Rattle.std.specs.Prelude.{◌≡◌, ◌<◌, ◌++◌, length, OnOk, OnErr};
ghost use Rattle.clause_store.specs.Formula.{IsKnown, Grows};
ghost use Rattle.source_clauses.specs.Same.{same_bit, AddsSame};

use clause_store::lit::Lit;
use clause_store::store::ClauseStore;
use odr_list::memory::Memory;

// The bit that is read is this one. The literal that the other forces stands last.
fn add_same_bit(clauses: &mut ClauseStore<'_>, bit: Lit, read: Lit) -> Result<(), Memory>
    requires bit_known { bit.var < clauses.old.vars }
    requires read_known { read.var < clauses.old.vars }
    ensures ok { OnOk result (clauses.new ≡ record clauses.old { clauses = clauses.old.clauses ++ same_bit bit read }) }
    ensures err { OnErr result (Grows clauses.old clauses.new) }
{
    clauses.add(&[bit.opposite(), read])?;
    clauses.add(&[bit, read.opposite()])
}

/// Makes the bits that are read the same as those of their one source.
///
/// # Errors
///
/// `Memory` alone, which leaves older variables and clauses.
pub fn add_same(clauses: &mut ClauseStore<'_>, bits: &[Lit], read: &[Lit]) -> Result<(), Memory>
    requires bits_known { IsKnown clauses.old.vars bits.now }
    requires read_known { IsKnown clauses.old.vars read.now }
    requires same_width { length bits.now ≡ length read.now }
    ensures ok { OnOk result (AddsSame clauses.old clauses.new bits.now read.now) }
    ensures err { OnErr result (Grows clauses.old clauses.new) }
{
    for b in 0..read.len() {
        add_same_bit(clauses, bits[b], read[b])?;
    }
    Ok(())
}
