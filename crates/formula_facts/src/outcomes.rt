//! The outcomes of store-conditionals.
ghost use Rattle.std.specs.Prelude.{◌<◌, length, OnErr, OnOk};
ghost use Rattle.clause_store.specs.Formula.{Grows};
ghost use Rattle.formula_facts.specs.Known.{AddsFacts, CanAdd, all_outcomes, outcome_of_access};

use crate::known::Known;
use bv_rewrite::rewrite::Rewrite;
use elf_image::image::Image;
use encoder::encoder::Encoder;
use odr_list::memory::Memory;
use outcome_parts::built::add_success;
use rivals::rivals::rivals_of;
use std::alloc::Global;

/// Adds that an access that looks back to a load-reserved writes exactly where it succeeds.
///
/// # Errors
///
/// `Memory` alone, which leaves older variables and clauses; the encoder isn't to be used any more.
pub fn add_outcome<'a, R: Rewrite>(
    encoder: &mut Encoder<'a>,
    alloc: Global,
    book: &R,
    image: &'a Image,
    known: &Known,
    access: usize,
) -> Result<(), Memory>
    requires can { CanAdd image.now known.now encoder.old }
    requires access { access < length known.now.accesses }
    ensures adds { OnOk result (AddsFacts image.now known.now encoder.old encoder.new (outcome_of_access known.now.accesses access)) }
    ensures err { OnErr result (Grows encoder.old.clauses encoder.new.clauses) }
{
    let accesses = known.accesses.as_slice();
    let Some(reserved) = accesses[access].link else {
        return Ok(());
    };
    let reserved = reserved as usize;
    let rivals = rivals_of(
        alloc,
        &known.order,
        known.shapes.as_slice(),
        known.places.as_slice(),
        &known.vars,
        reserved,
        access,
    )?;
    add_success(
        encoder,
        alloc,
        book,
        accesses,
        reserved,
        access,
        rivals.as_slice(),
    )?;
    Ok(())
}

/// Adds that all store-conditionals that look back have their outcomes.
///
/// # Errors
///
/// As above.
pub fn add_outcomes<'a, R: Rewrite>(
    encoder: &mut Encoder<'a>,
    alloc: Global,
    book: &R,
    image: &'a Image,
    known: &Known,
) -> Result<(), Memory>
    requires can { CanAdd image.now known.now encoder.old }
    ensures adds { OnOk result (AddsFacts image.now known.now encoder.old encoder.new (all_outcomes known.now.accesses (length known.now.accesses))) }
    ensures err { OnErr result (Grows encoder.old.clauses encoder.new.clauses) }
{
    for access in 0..known.accesses.len() {
        add_outcome(encoder, alloc, book, image, known, access)?;
    }
    Ok(())
}
