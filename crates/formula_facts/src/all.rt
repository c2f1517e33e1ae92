//! All that a formula says beside the order of accesses.
ghost use Rattle.std.specs.Prelude.{OnErr, OnOk};
ghost use Rattle.clause_store.specs.Formula.{Grows};
ghost use Rattle.formula_facts.specs.All.{AddsAll, CanAddAll};

use crate::bytes::add_reads;
use crate::constraints::add_constraints;
use crate::known::Known;
use crate::outcomes::add_outcomes;
use bv_rewrite::rewrite::Rewrite;
use bv_terms::node::TermId;
use elf_image::image::Image;
use encoder::encoder::Encoder;
use odr_list::memory::Memory;
use std::alloc::Global;
use written_parts::add_written;

/// Adds that all bytes are those that accesses see, that all store-conditionals have their outcomes, and that constraints are 1.
///
/// # Errors
///
/// `Memory` alone, which leaves older variables and clauses; the encoder isn't to be used any more.
pub fn add_all<'a, R: Rewrite>(
    encoder: &mut Encoder<'a>,
    alloc: Global,
    book: &R,
    image: &'a Image,
    known: &Known,
    constraints: &[TermId],
) -> Result<(), Memory>
    requires can { CanAddAll image.now known.now encoder.old constraints.now }
    ensures adds { OnOk result (AddsAll image.now known.now encoder.old encoder.new constraints.now) }
    ensures err { OnErr result (Grows encoder.old.clauses encoder.new.clauses) }
{
    add_written(encoder, alloc, known.accesses.as_slice())?;
    add_reads(encoder, alloc, book, image, known)?;
    add_outcomes(encoder, alloc, book, image, known)?;
    add_constraints(encoder, alloc, constraints)?;
    Ok(())
}
