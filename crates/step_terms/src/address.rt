//! Addresses of accesses and targets of jumps.
ghost use Rattle.std.specs.Prelude.{◌≡◌, ◌*◌, ◌/◌, [], ◌∷◌, IfOk};
ghost use Rattle.rv_model.specs.Values.{plus_offset};
ghost use Rattle.bv_terms.specs.Values.{value_at};
ghost use Rattle.step_terms.specs.Made.{Grows, IsMade, IsTerm};

use crate::alu::signed_constant;
use crate::make::{constant, operation, part};
use crate::word::of_words;
use bv_rewrite::rewrite::Rewrite;
use bv_terms::node::{BinOp, TermId};
use bv_terms::pool::TermPool;
use odr_list::memory::Memory;

/// A word and a signed offset, modulo 2^32.
pub fn offset_by<R: Rewrite>(
    pool: &mut TermPool<'_>,
    book: &R,
    word: TermId,
    offset: i32,
) -> Result<TermId, Memory>
    requires { IsTerm pool.old 32 word.number }
    ensures made { IfOk result (λ id. IsMade pool.old pool.new (word.number ∷ []) 32 (λ w. plus_offset (value_at w pool.old word.number) offset) id.number) }
    ensures grows { Grows pool.old pool.new }
{
    let offset = signed_constant(pool, offset)?;
    of_words(pool, book, BinOp::Add, word, offset)
}

// A word with its lowest bit cleared.
fn even<R: Rewrite>(pool: &mut TermPool<'_>, book: &R, word: TermId) -> Result<TermId, Memory>
    requires { IsTerm pool.old 32 word.number }
    ensures made { IfOk result (λ id. IsMade pool.old pool.new (word.number ∷ []) 32 (λ w. value_at w pool.old word.number / 2 * 2) id.number) }
    ensures grows { Grows pool.old pool.new }
{
    let width = pool.width(word);
    prove!(width == 32);
    let high = part(pool, word, 31, 1)?;
    let zero = constant(pool, 1, 0)?;
    operation(pool, book, BinOp::Concat, high, zero)
}

/// The target of a JALR: a word and a signed offset, with the lowest bit cleared.
pub fn jump_target<R: Rewrite>(
    pool: &mut TermPool<'_>,
    book: &R,
    word: TermId,
    offset: i32,
) -> Result<TermId, Memory>
    requires { IsTerm pool.old 32 word.number }
    ensures made { IfOk result (λ id. IsMade pool.old pool.new (word.number ∷ []) 32 (λ w. plus_offset (value_at w pool.old word.number) offset / 2 * 2) id.number) }
    ensures grows { Grows pool.old pool.new }
{
    let sum = offset_by(pool, book, word, offset)?;
    even(pool, book, sum)
}
