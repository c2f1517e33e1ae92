//! Operations and comparisons of words.
ghost use Rattle.std.specs.Prelude.{◌≡◌, [], ◌∷◌, IfOk, nat_eq};
ghost use Rattle.bv_terms.specs.BitVectors.{bin_value, bin_width, bit_of, bits};
ghost use Rattle.bv_terms.specs.Fitting.{AreOperands};
ghost use Rattle.bv_terms.specs.Values.{value_at};
ghost use Rattle.step_terms.specs.Made.{Grows, IsMade, IsTerm};

use crate::make::{self, operation, zero_extended};
use bv_rewrite::rewrite::Rewrite;
use bv_terms::node::{BinOp, TermId};
use bv_terms::pool::TermPool;
use odr_list::memory::Memory;

/// An operation on two words.
pub fn of_words<R: Rewrite>(
    pool: &mut TermPool<'_>,
    book: &R,
    op: BinOp,
    left: TermId,
    right: TermId,
) -> Result<TermId, Memory>
    requires left { IsTerm pool.old 32 left.number }
    requires right { IsTerm pool.old 32 right.number }
    requires operands { AreOperands op 32 32 }
    ensures made { IfOk result (λ id. IsMade pool.old pool.new (left.number ∷ right.number ∷ []) (bin_width op 32 32) (λ w. bin_value op (bits 32 (value_at w pool.old left.number)) (bits 32 (value_at w pool.old right.number))) id.number) }
    ensures grows { Grows pool.old pool.new }
{
    operation(pool, book, op, left, right)
}

/// A comparison of two words, as a word.
pub fn compared<R: Rewrite>(
    pool: &mut TermPool<'_>,
    book: &R,
    op: BinOp,
    left: TermId,
    right: TermId,
) -> Result<TermId, Memory>
    requires left { IsTerm pool.old 32 left.number }
    requires right { IsTerm pool.old 32 right.number }
    requires operands { AreOperands op 32 32 }
    requires bit { bin_width op 32 32 ≡ 1 }
    ensures made { IfOk result (λ id. IsMade pool.old pool.new (left.number ∷ right.number ∷ []) 32 (λ w. bin_value op (bits 32 (value_at w pool.old left.number)) (bits 32 (value_at w pool.old right.number))) id.number) }
    ensures grows { Grows pool.old pool.new }
{
    let test = of_words(pool, book, op, left, right)?;
    zero_extended(pool, test, 32)
}

/// Whether a word is a number.
pub fn equals<R: Rewrite>(
    pool: &mut TermPool<'_>,
    book: &R,
    word: TermId,
    number: u32,
) -> Result<TermId, Memory>
    requires { IsTerm pool.old 32 word.number }
    ensures made { IfOk result (λ id. IsMade pool.old pool.new (word.number ∷ []) 1 (λ w. bit_of (nat_eq (value_at w pool.old word.number) number)) id.number) }
    ensures grows { Grows pool.old pool.new }
{
    let number = make::word(pool, number)?;
    operation(pool, book, BinOp::Eq, word, number)
}
