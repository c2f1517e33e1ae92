//! Bytes that are those of one source.
ghost use Rattle.std.specs.Prelude.{◌≡◌, ◌<◌, ◌≤◌, ◌^◌, length, slice_index_or, OnErr, OnOk};
ghost use Rattle.clause_store.specs.Formula.{Grows};
ghost use Rattle.encoder.specs.Encodes.{IsKnown};
ghost use Rattle.step_terms.specs.Made.{IsTerm};
ghost use Rattle.term_sources.specs.Sees.{access_at, no_id};
ghost use Rattle.same_parts.specs.Adding.{SaysInitial, SaysSame, SaysWritten};

use bv_rewrite::rewrite::Rewrite;
use bv_terms::node::TermId;
use elf_image::image::Image;
use encoder::encoder::Encoder;
use hit_terms::initial::initial;
use odr_list::list::List;
use odr_list::memory::Memory;
use source_clauses::same::add_same;
use std::alloc::Global;
use thread_terms::access::Access;

/// Adds that a byte that is read has the bits of its source.
///
/// # Errors
///
/// `Memory` alone, which leaves older variables and clauses; the encoder isn't to be used any more.
pub fn add_same_terms(
    encoder: &mut Encoder<'_>,
    alloc: Global,
    read: TermId,
    source: TermId,
) -> Result<(), Memory>
    requires read { IsTerm encoder.old.pool 8 read.number }
    requires source { IsTerm encoder.old.pool 8 source.number }
    requires known { IsKnown encoder.old }
    ensures says { OnOk result (SaysSame encoder.old encoder.new read.number source.number) }
    ensures err { OnErr result (Grows encoder.old.clauses encoder.new.clauses) }
{
    let mut read_bits = List::new(alloc);
    encoder.append(alloc, read, &mut read_bits)?;
    let mut source_bits = List::new(alloc);
    encoder.append(alloc, source, &mut source_bits)?;
    add_same(
        &mut encoder.clauses,
        source_bits.as_slice(),
        read_bits.as_slice(),
    )?;
    Ok(())
}

/// Adds that a byte of an access is the one that another access writes there.
///
/// # Errors
///
/// As above.
pub fn add_written(
    encoder: &mut Encoder<'_>,
    alloc: Global,
    accesses: &[Access],
    reader: usize,
    index: u32,
    writer: usize,
    byte: u32,
) -> Result<(), Memory>
    requires reader { reader < length accesses.now }
    requires index { index < length (access_at accesses.now reader).reads }
    requires writer { writer < length accesses.now }
    requires byte { byte < length (access_at accesses.now writer).writes }
    requires read { IsTerm encoder.old.pool 8 (slice_index_or (access_at accesses.now reader).reads index no_id).number }
    requires written { IsTerm encoder.old.pool 8 (slice_index_or (access_at accesses.now writer).writes byte no_id).number }
    requires known { IsKnown encoder.old }
    ensures says { OnOk result (SaysWritten encoder.old encoder.new accesses.now reader index writer byte) }
    ensures err { OnErr result (Grows encoder.old.clauses encoder.new.clauses) }
{
    let read = accesses[reader].reads.as_slice()[index as usize];
    let written = accesses[writer].writes.as_slice()[byte as usize];
    add_same_terms(encoder, alloc, read, written)?;
    Ok(())
}

/// Adds that a byte of an access is the one that stands there before the first step.
///
/// # Errors
///
/// As above.
pub fn add_initial<'a, R: Rewrite>(
    encoder: &mut Encoder<'a>,
    alloc: Global,
    book: &R,
    image: &'a Image,
    accesses: &[Access],
    reader: usize,
    index: u32,
) -> Result<(), Memory>
    requires reader { reader < length accesses.now }
    requires index { index < length (access_at accesses.now reader).reads }
    requires read { IsTerm encoder.old.pool 8 (slice_index_or (access_at accesses.now reader).reads index no_id).number }
    requires address { IsTerm encoder.old.pool 32 (access_at accesses.now reader).address.number }
    requires known { IsKnown encoder.old }
    ensures says { OnOk result (SaysInitial encoder.old encoder.new image.now accesses.now reader index) }
    ensures err { OnErr result (Grows encoder.old.clauses encoder.new.clauses) }
{
    let read = accesses[reader].reads.as_slice()[index as usize];
    let address = accesses[reader].address;
    let source = initial(&mut encoder.pool, book, image, address, index)?;
    add_same_terms(encoder, alloc, read, source)?;
    Ok(())
}
