//! Shifts by the low five bits of a word.
ghost use Rattle.std.specs.Prelude.{◌≡◌, ◌%◌, ◌^◌, [], ◌∷◌, IfOk};
ghost use Rattle.bv_terms.specs.BitVectors.{bin_value, bin_width, bits};
ghost use Rattle.bv_terms.specs.Fitting.{AreOperands};
ghost use Rattle.bv_terms.specs.Values.{value_at};
ghost use Rattle.step_terms.specs.Made.{Grows, IsMade, IsTerm};

use crate::make::{operation, part, zero_extended};
use bv_rewrite::rewrite::Rewrite;
use bv_terms::node::{BinOp, TermId};
use bv_terms::pool::TermPool;
use odr_list::memory::Memory;

// The low five bits, as a word.
fn shift_amount(pool: &mut TermPool<'_>, by: TermId) -> Result<TermId, Memory>
    requires { IsTerm pool.old 32 by.number }
    ensures made { IfOk result (λ id. IsMade pool.old pool.new (by.number ∷ []) 32 (λ w. value_at w pool.old by.number % 2 ^ 5) id.number) }
    ensures grows { Grows pool.old pool.new }
{
    let low = part(pool, by, 4, 0)?;
    zero_extended(pool, low, 32)
}

/// A word shifted by the low five bits of another.
pub fn shifted<R: Rewrite>(
    pool: &mut TermPool<'_>,
    book: &R,
    op: BinOp,
    word: TermId,
    by: TermId,
) -> Result<TermId, Memory>
    requires word { IsTerm pool.old 32 word.number }
    requires by { IsTerm pool.old 32 by.number }
    requires operands { AreOperands op 32 32 }
    requires shift { bin_width op 32 32 ≡ 32 }
    ensures made { IfOk result (λ id. IsMade pool.old pool.new (word.number ∷ by.number ∷ []) 32 (λ w. bin_value op (bits 32 (value_at w pool.old word.number)) (bits 32 (value_at w pool.old by.number % 2 ^ 5))) id.number) }
    ensures grows { Grows pool.old pool.new }
{
    let amount = shift_amount(pool, by)?;
    operation(pool, book, op, word, amount)
}
