//! The condition that tells whether a write hits.
ghost use Rattle.std.specs.Prelude.{IfOk, OnErr};
ghost use Rattle.clause_store.specs.Formula.{Grows};
ghost use Rattle.encoder.specs.Encodes.{Encodes, IsKnown};
ghost use Rattle.reader_parts.specs.Conditions.{HasTerms, IsCondition, hit_parts};
ghost use Rattle.term_sources.specs.Sees.{hits};

use bv_rewrite::rewrite::Rewrite;
use encoder::encoder::Encoder;
use hit_terms::hit::hit;
use odr_list::memory::Memory;
use order_clauses::order_lit::OrderLit;
use std::alloc::Global;
use thread_terms::access::Access;

/// What says that one access writes a byte where another one reads one: constants decide it.
///
/// # Errors
///
/// `Memory` alone, which leaves older variables and clauses; the encoder isn't to be used any more.
pub fn hit_condition<R: Rewrite>(
    encoder: &mut Encoder<'_>,
    alloc: Global,
    book: &R,
    writer: &Access,
    byte: u32,
    reader: &Access,
    index: u32,
) -> Result<OrderLit, Memory>
    requires writer { HasTerms encoder.old.pool writer.now }
    requires reader { HasTerms encoder.old.pool reader.now }
    requires known { IsKnown encoder.old }
    ensures encodes { IfOk result (λ condition. Encodes encoder.old encoder.new (hit_parts writer.now reader.now)) }
    ensures condition { IfOk result (λ condition. IsCondition encoder.new (hit_parts writer.now reader.now)
        (λ t. hits t encoder.old.pool writer.now byte reader.now index) condition) }
    ensures err { OnErr result (Grows encoder.old.clauses encoder.new.clauses) }
{
    let term = hit(
        &mut encoder.pool,
        book,
        writer.guard,
        writer.address,
        byte,
        reader.address,
        index,
    )?;
    let condition = encoder.test(alloc, term)?;
    Ok(condition)
}
