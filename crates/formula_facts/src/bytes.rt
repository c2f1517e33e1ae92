//! The bytes that an access reads.
ghost use Rattle.std.specs.Prelude.{◌<◌, ◌∷◌, [], length, OnErr, OnOk};
ghost use Rattle.clause_store.specs.Formula.{Grows};
ghost use Rattle.formula_parts.specs.Facts.{Reads};
ghost use Rattle.term_sources.specs.Sees.{access_at};
ghost use Rattle.formula_facts.specs.Known.{AddsFacts, AddsOpen, CanAdd, CanAddOpen, all_reads, reads_of_access};

use crate::known::Known;
use bv_rewrite::rewrite::Rewrite;
use elf_image::image::Image;
use encoder::encoder::Encoder;
use odr_list::memory::Memory;
use read_parts::read::add_read;
use read_spots::source::{Source, source_of};
use read_spots::spots::spots_of;
use reader_parts::reading::Reading;
use same_parts::same::{add_initial, add_written};
use std::alloc::Global;

// Adds that an open byte is one that was written at a spot before it, or the initial one.
fn add_open<'a, R: Rewrite>(
    encoder: &mut Encoder<'a>,
    alloc: Global,
    book: &R,
    image: &'a Image,
    known: &Known,
    access: usize,
    index: u32,
) -> Result<(), Memory>
    requires can { CanAddOpen image.now known.now encoder.old access index }
    ensures adds { OnOk result (AddsOpen image.now known.now encoder.old encoder.new access index) }
    ensures err { OnErr result (Grows encoder.old.clauses encoder.new.clauses) }
{
    let spots = spots_of(
        alloc,
        &known.order,
        known.accesses.as_slice(),
        known.shapes.as_slice(),
        known.places.as_slice(),
        access,
        index,
    )?;
    let Some(at) = known.places.as_slice()[access] else {
        return Ok(());
    };
    let reading = Reading {
        access,
        index,
        count: 1,
        at,
    };
    add_read(
        encoder,
        alloc,
        book,
        image,
        known.accesses.as_slice(),
        known.vars.table(),
        reading,
        spots.as_slice(),
    )?;
    Ok(())
}

/// Adds that a byte of an access is what the access sees there.
///
/// # Errors
///
/// `Memory` alone, which leaves older variables and clauses; the encoder isn't to be used any more.
pub fn add_byte<'a, R: Rewrite>(
    encoder: &mut Encoder<'a>,
    alloc: Global,
    book: &R,
    image: &'a Image,
    known: &Known,
    access: usize,
    index: u32,
) -> Result<(), Memory>
    requires can { CanAdd image.now known.now encoder.old }
    requires access { access < length known.now.accesses }
    requires index { index < length (access_at known.now.accesses access).reads }
    ensures adds { OnOk result (AddsFacts image.now known.now encoder.old encoder.new (Reads access index ∷ [])) }
    ensures err { OnErr result (Grows encoder.old.clauses encoder.new.clauses) }
{
    let accesses = known.accesses.as_slice();
    match source_of(
        known.seen.as_slice(),
        known.shapes.as_slice(),
        access,
        index,
    ) {
        Source::Open => add_open(encoder, alloc, book, image, known, access, index),
        Source::Initial => add_initial(encoder, alloc, book, image, accesses, access, index),
        Source::Written {
            access: writer,
            byte,
        } => add_written(encoder, alloc, accesses, access, index, writer, byte),
    }
}

/// Adds that each byte of an access is what the access sees there.
///
/// # Errors
///
/// As above.
pub fn add_bytes<'a, R: Rewrite>(
    encoder: &mut Encoder<'a>,
    alloc: Global,
    book: &R,
    image: &'a Image,
    known: &Known,
    access: usize,
) -> Result<(), Memory>
    requires can { CanAdd image.now known.now encoder.old }
    requires access { access < length known.now.accesses }
    ensures adds { OnOk result (AddsFacts image.now known.now encoder.old encoder.new (reads_of_access known.now.accesses access)) }
    ensures err { OnErr result (Grows encoder.old.clauses encoder.new.clauses) }
{
    let count = known.accesses.as_slice()[access].reads.len();
    for index in 0..count {
        add_byte(encoder, alloc, book, image, known, access, index as u32)?;
    }
    Ok(())
}

/// Adds that all bytes that accesses read are what these see.
///
/// # Errors
///
/// As above.
pub fn add_reads<'a, R: Rewrite>(
    encoder: &mut Encoder<'a>,
    alloc: Global,
    book: &R,
    image: &'a Image,
    known: &Known,
) -> Result<(), Memory>
    requires can { CanAdd image.now known.now encoder.old }
    ensures adds { OnOk result (AddsFacts image.now known.now encoder.old encoder.new (all_reads known.now.accesses (length known.now.accesses))) }
    ensures err { OnErr result (Grows encoder.old.clauses encoder.new.clauses) }
{
    for access in 0..known.accesses.len() {
        add_bytes(encoder, alloc, book, image, known, access)?;
    }
    Ok(())
}
