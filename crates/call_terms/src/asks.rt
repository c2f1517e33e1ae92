//! The number and the arguments of a call, as a constraint on registers.
ghost use Rattle.std.specs.Prelude.{◌≡◌, ◌<◌, IfOk, IfSome};
ghost use Rattle.rv_model.specs.CallsFit.{IsPossible};
ghost use Rattle.rv_model.specs.Thread.{register};
ghost use Rattle.step_terms.specs.Made.{Grows};
ghost use Rattle.thread_terms.specs.Standing.{AreRegisters, Says};
ghost use Rattle.call_terms.specs.Records.{Asks};

use crate::conjunction::conjunction;
use crate::record::{first_in, number_in, second_in};
use access_terms::bits::constant_bit;
use bv_rewrite::rewrite::Rewrite;
use bv_terms::node::TermId;
use bv_terms::pool::TermPool;
use odr_list::memory::Memory;
use odr_log::log::Call;
use thread_terms::constraints::holds;

// Whether a register holds what a record tells of it.
fn argument<R: Rewrite>(
    pool: &mut TermPool<'_>,
    book: &R,
    registers: &[TermId; 32],
    number: u8,
    told: Option<u32>,
) -> Result<TermId, Memory>
    requires registers { AreRegisters pool.old registers.now }
    requires number { number < 32 }
    ensures says { IfOk result (λ id. Says pool.old pool.new registers.now id.number (λ local. IfSome told (λ value. register local number ≡ value))) }
    ensures grows { Grows pool.old pool.new }
{
    match told {
        None => constant_bit(pool, true),
        Some(value) => holds(pool, book, registers, number, value),
    }
}

/// Whether the registers ask for a call as it is recorded.
pub fn asks<R: Rewrite>(
    pool: &mut TermPool<'_>,
    book: &R,
    registers: &[TermId; 32],
    call: &Call,
) -> Result<TermId, Memory>
    requires registers { AreRegisters pool.old registers.now }
    requires possible { IsPossible call.now }
    ensures says { IfOk result (λ id. Says pool.old pool.new registers.now id.number (λ local. Asks local call.now)) }
    ensures grows { Grows pool.old pool.new }
{
    let number = holds(pool, book, registers, 17, number_in(call))?;
    let first = argument(pool, book, registers, 10, first_in(call))?;
    let second = argument(pool, book, registers, 11, second_in(call))?;
    let arguments = conjunction(pool, book, first, second)?;
    conjunction(pool, book, number, arguments)
}
