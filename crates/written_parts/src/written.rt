//! Literals of written bytes.
ghost use Rattle.std.specs.Prelude.{◌≡◌, All, OnErr, OnOk};
ghost use Rattle.clause_store.specs.Formula.{Grows};
ghost use Rattle.encoder.specs.Encodes.{Encodes, IsKnown};
ghost use Rattle.read_clauses.specs.Readers.{AreWritten};
ghost use Rattle.reader_parts.specs.Conditions.{HasTerms};
ghost use Rattle.written_parts.specs.Written.{WriteBytes, written_terms};

use encoder::encoder::Encoder;
use odr_list::memory::Memory;
use std::alloc::Global;
use thread_terms::access::Access;

/// Gives literals to all bytes that accesses may write.
///
/// # Errors
///
/// `Memory` alone, which leaves older variables and clauses; the encoder isn't to be used any more.
pub fn add_written(
    encoder: &mut Encoder<'_>,
    alloc: Global,
    accesses: &[Access],
) -> Result<(), Memory>
    requires terms { All (HasTerms encoder.old.pool) accesses.now }
    requires known { IsKnown encoder.old }
    ensures encodes { OnOk result (Encodes encoder.old encoder.new (written_terms accesses.now)) }
    ensures written { OnOk result (WriteBytes encoder.old.pool accesses.now → AreWritten encoder.new accesses.now) }
    ensures pool { encoder.new.pool ≡ encoder.old.pool }
    ensures err { OnErr result (Grows encoder.old.clauses encoder.new.clauses) }
{
    for k in 0..accesses.len() {
        let _lits = encoder.literals(alloc, accesses[k].writes.as_slice())?;
    }
    Ok(())
}
