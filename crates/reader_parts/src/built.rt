//! The reader of some bytes of an access.
ghost use Rattle.std.specs.Prelude.{◌+◌, ◌<◌, ◌≤◌, ◌^◌, length, All, IfOk, OnErr};
ghost use Rattle.clause_store.specs.Formula.{Grows};
ghost use Rattle.encoder.specs.Encodes.{Encodes, IsKnown};
ghost use Rattle.reader_parts.specs.Conditions.{HasTerms};
ghost use Rattle.reader_parts.specs.Readings.{IsBuiltReader, IsSource, IsReading, reader_parts};

use crate::bits::run_bits;
use crate::candidate::candidates_of;
use crate::initial::initial_terms;
use crate::reading::{Reading, Spot};
use bv_rewrite::rewrite::Rewrite;
use elf_image::image::Image;
use encoder::encoder::Encoder;
use odr_list::memory::Memory;
use source_clauses::reader::Reader;
use std::alloc::Global;
use thread_terms::access::Access;

/// The reader of some bytes of an access, which may see the writes at some spots, with literals for all that it stands on.
///
/// # Errors
///
/// `Memory` alone, which leaves older variables and clauses; the encoder isn't to be used any more.
pub fn built_reader<'a, R: Rewrite>(
    encoder: &mut Encoder<'a>,
    alloc: Global,
    book: &R,
    image: &'a Image,
    accesses: &[Access],
    reading: Reading,
    spots: &[Spot],
) -> Result<Reader, Memory>
    requires terms { All (HasTerms encoder.old.pool) accesses.now }
    requires reading { IsReading accesses.now reading }
    requires sources { All (IsSource accesses.now reading) spots.now }
    requires known { IsKnown encoder.old }
    ensures encodes { IfOk result (λ reader. Encodes encoder.old encoder.new (reader_parts accesses.now reading spots.now)) }
    ensures built { IfOk result (λ reader. IsBuiltReader encoder.old.pool encoder.new image.now accesses.now reading spots.now reader) }
    ensures err { OnErr result (Grows encoder.old.clauses encoder.new.clauses) }
{
    let access = &accesses[reading.access];
    let candidates = candidates_of(encoder, alloc, book, accesses, reading, spots)?;
    let read = run_bits(
        encoder,
        alloc,
        access.reads.as_slice(),
        reading.index,
        reading.count,
    )?;
    let terms = initial_terms(
        &mut encoder.pool,
        alloc,
        book,
        image,
        access.address,
        reading.index,
        reading.count,
    )?;
    let initial = encoder.literals(alloc, terms.as_slice())?;
    Ok(Reader {
        at: reading.at,
        candidates,
        initial,
        read,
    })
}
