//! Literals of bytes.
ghost use Rattle.std.specs.Prelude.{◌≡◌, ◌+◌, ◌<◌, ◌≤◌, length, All, IfOk, OnErr};
ghost use Rattle.bv_terms.specs.declared.node.TermId.{TermId};
ghost use Rattle.clause_store.specs.Formula.{Grows};
ghost use Rattle.encoder.specs.Encodes.{Encodes, IsKnown};
ghost use Rattle.reader_parts.specs.Readings.{AreLiterals, run_of};

use bv_terms::node::TermId;
use clause_store::lit::Lit;
use encoder::encoder::Encoder;
use odr_list::list::List;
use odr_list::memory::Memory;
use std::alloc::Global;

/// The literals of so many of some terms, one term after the other.
///
/// # Errors
///
/// `Memory` alone, which leaves older variables and clauses; the encoder isn't to be used any more.
pub fn run_bits(
    encoder: &mut Encoder<'_>,
    alloc: Global,
    terms: &[TermId],
    first: u32,
    count: u32,
) -> Result<List<Lit>, Memory>
    requires within { first + count ≤ length terms.now }
    requires terms { All (λ (id : TermId). id.number < length encoder.old.pool) terms.now }
    requires known { IsKnown encoder.old }
    ensures encodes { IfOk result (λ lits. Encodes encoder.old encoder.new (run_of terms.now first count)) }
    ensures lits { IfOk result (λ lits. AreLiterals encoder.new (run_of terms.now first count) lits) }
    ensures pool { encoder.new.pool ≡ encoder.old.pool }
    ensures err { OnErr result (Grows encoder.old.clauses encoder.new.clauses) }
{
    let mut lits = List::new(alloc);
    for k in 0..count {
        encoder.append(alloc, terms[first as usize + k as usize], &mut lits)?;
    }
    Ok(lits)
}
