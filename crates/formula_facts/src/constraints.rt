//! The constraints of symbolic paths.
ghost use Rattle.std.specs.Prelude.{◌≡◌, All, OnErr, OnOk};
ghost use Rattle.clause_store.specs.Formula.{Grows};
ghost use Rattle.encoder.specs.Encodes.{IsKnown};
ghost use Rattle.step_terms.specs.Made.{IsTerm};
ghost use Rattle.formula_facts.specs.Constraints.{AddsConstraints};

use bv_terms::node::TermId;
use encoder::encoder::Encoder;
use odr_list::memory::Memory;
use std::alloc::Global;

/// Requires that each constraint is 1.
///
/// # Errors
///
/// `Memory` alone, which leaves older variables and clauses; the encoder isn't to be used any more.
pub fn add_constraints(
    encoder: &mut Encoder<'_>,
    alloc: Global,
    constraints: &[TermId],
) -> Result<(), Memory>
    requires bits { All (λ id. IsTerm encoder.old.pool 1 id.number) constraints.now }
    requires known { IsKnown encoder.old }
    ensures adds { OnOk result (AddsConstraints encoder.old encoder.new constraints.now) }
    ensures pool { encoder.new.pool ≡ encoder.old.pool }
    ensures err { OnErr result (Grows encoder.old.clauses encoder.new.clauses) }
{
    for k in 0..constraints.len() {
        encoder.require(alloc, constraints[k])?;
    }
    Ok(())
}
