//! Clauses that make bits the same where a source is selected.
ghost use Rattle.std.specs.Prelude.{◌≡◌, ◌<◌, length, OnOk, OnErr, Contains};
ghost use Rattle.clause_store.specs.Formula.{IsKnown, Grows};
ghost use Rattle.order_clauses.specs.Clauses.{Adds};
ghost use Rattle.source_clauses.specs.Clauses.{copied, Copied};

use crate::implied::add_implied;
use clause_store::lit::Lit;
use clause_store::store::ClauseStore;
use odr_list::memory::Memory;
use order_clauses::order_lit::OrderLit;

// Where the selection is true, the bit that is read is this one.
fn add_copied(
    clauses: &mut ClauseStore<'_>,
    selection: Lit,
    bit: Lit,
    read: Lit,
) -> Result<(), Memory>
    requires selection_known { selection.var < clauses.old.vars }
    requires bit_known { bit.var < clauses.old.vars }
    requires read_known { read.var < clauses.old.vars }
    ensures ok { OnOk result (Adds clauses.old clauses.new (Contains (copied selection bit read))) }
    ensures err { OnErr result (Grows clauses.old clauses.new) }
{
    add_implied(clauses, selection, OrderLit::Is(bit), OrderLit::Is(read))?;
    add_implied(
        clauses,
        selection,
        OrderLit::Is(bit.opposite()),
        OrderLit::Is(read.opposite()),
    )?;
    Ok(())
}

/// Where the selection is true, the bits that are read are these.
pub fn add_bits(
    clauses: &mut ClauseStore<'_>,
    selection: Lit,
    bits: &[Lit],
    read: &[Lit],
) -> Result<(), Memory>
    requires selection_known { selection.var < clauses.old.vars }
    requires bits_known { IsKnown clauses.old.vars bits.now }
    requires read_known { IsKnown clauses.old.vars read.now }
    requires same_width { length bits.now ≡ length read.now }
    ensures ok { OnOk result (Adds clauses.old clauses.new (Copied selection bits.now read.now)) }
    ensures err { OnErr result (Grows clauses.old clauses.new) }
{
    for b in 0..read.len() {
        add_copied(clauses, selection, bits[b], read[b])?;
    }
    Ok(())
}
