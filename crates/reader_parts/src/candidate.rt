//! The writes that may be seen.
ghost use Rattle.std.specs.Prelude.{◌<◌, length, All, IfOk, OnErr};
ghost use Rattle.clause_store.specs.Formula.{Grows};
ghost use Rattle.encoder.specs.Encodes.{Encodes, IsKnown};
ghost use Rattle.reader_parts.specs.Conditions.{HasTerms};
ghost use Rattle.reader_parts.specs.Readings.{AreCandidatesOf, IsCandidateOf, IsSource, all_spot_parts, spot_parts};

use crate::bits::run_bits;
use crate::condition::hit_condition;
use crate::reading::{Reading, Spot};
use bv_rewrite::rewrite::Rewrite;
use encoder::encoder::Encoder;
use odr_list::list::List;
use odr_list::memory::Memory;
use source_clauses::reader::Candidate;
use std::alloc::Global;
use thread_terms::access::Access;

// The candidate of a spot.
fn candidate_of<R: Rewrite>(
    encoder: &mut Encoder<'_>,
    alloc: Global,
    book: &R,
    accesses: &[Access],
    reading: Reading,
    spot: Spot,
) -> Result<Candidate, Memory>
    requires terms { All (HasTerms encoder.old.pool) accesses.now }
    requires reader { reading.access < length accesses.now }
    requires source { IsSource accesses.now reading spot }
    requires known { IsKnown encoder.old }
    ensures encodes { IfOk result (λ candidate. Encodes encoder.old encoder.new (spot_parts accesses.now reading spot)) }
    ensures candidate { IfOk result (λ candidate. IsCandidateOf encoder.old.pool encoder.new accesses.now reading spot candidate) }
    ensures err { OnErr result (Grows encoder.old.clauses encoder.new.clauses) }
{
    let writer = &accesses[spot.access];
    let reader = &accesses[reading.access];
    let hit = hit_condition(
        encoder,
        alloc,
        book,
        writer,
        spot.byte,
        reader,
        reading.index,
    )?;
    let bits = run_bits(
        encoder,
        alloc,
        writer.writes.as_slice(),
        spot.byte,
        reading.count,
    )?;
    Ok(Candidate {
        at: spot.at,
        hit,
        bits,
    })
}

/// A candidate for each spot, in their order.
///
/// # Errors
///
/// `Memory` alone, which leaves older variables and clauses; the encoder isn't to be used any more.
pub fn candidates_of<R: Rewrite>(
    encoder: &mut Encoder<'_>,
    alloc: Global,
    book: &R,
    accesses: &[Access],
    reading: Reading,
    spots: &[Spot],
) -> Result<List<Candidate>, Memory>
    requires terms { All (HasTerms encoder.old.pool) accesses.now }
    requires reader { reading.access < length accesses.now }
    requires sources { All (IsSource accesses.now reading) spots.now }
    requires known { IsKnown encoder.old }
    ensures encodes { IfOk result (λ candidates. Encodes encoder.old encoder.new (all_spot_parts accesses.now reading spots.now)) }
    ensures candidates { IfOk result (λ candidates. AreCandidatesOf encoder.old.pool encoder.new accesses.now reading spots.now candidates) }
    ensures err { OnErr result (Grows encoder.old.clauses encoder.new.clauses) }
{
    let mut candidates = List::new(alloc);
    for k in 0..spots.len() {
        let candidate = candidate_of(encoder, alloc, book, accesses, reading, spots[k])?;
        candidates.push(candidate)?;
    }
    Ok(candidates)
}
