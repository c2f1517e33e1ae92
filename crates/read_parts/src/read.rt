//! Bytes of accesses that are read together.
ghost use Rattle.std.specs.Prelude.{◌≡◌, OnErr, OnOk};
ghost use Rattle.clause_store.specs.Formula.{Grows};
ghost use Rattle.formula_parts.specs.Order.{Setting};
ghost use Rattle.formula_parts.specs.Parts.{Adds};
ghost use Rattle.read_parts.specs.Reads.{CanBeRead, CanRead, IsSettingOf, reads_of};

use bv_rewrite::rewrite::Rewrite;
use elf_image::image::Image;
use encoder::encoder::Encoder;
use odr_list::memory::Memory;
use order_clauses::table::Table;
use reader_parts::built::built_reader;
use reader_parts::reading::{Reading, Spot};
use source_clauses::sources::add_reader;
use std::alloc::Global;
use thread_terms::access::Access;

/// Adds that each byte of a reading is what the access sees there, in the order that the table stands for.
///
/// # Errors
///
/// `Memory` alone, which leaves older variables and clauses; the encoder isn't to be used any more.
pub fn add_read<'a, R: Rewrite>(
    encoder: &mut Encoder<'a>,
    alloc: Global,
    book: &R,
    image: &'a Image,
    accesses: &[Access],
    table: &Table,
    reading: Reading,
    spots: &[Spot],
) -> Result<(), Memory>
    requires can { CanBeRead image.now accesses.now table.now encoder.old reading spots.now }
    ensures adds { OnOk result ((setting : Setting) → IsSettingOf setting image.now accesses.now table.now
        → CanRead setting encoder.old reading spots.now → Adds setting encoder.old encoder.new (reads_of reading)) }
    ensures err { OnErr result (Grows encoder.old.clauses encoder.new.clauses) }
{
    let reader = built_reader(encoder, alloc, book, image, accesses, reading, spots)?;
    add_reader(alloc, table, &mut encoder.clauses, &reader)?;
    Ok(())
}
