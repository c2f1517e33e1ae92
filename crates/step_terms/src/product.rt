//! High words of products.
ghost use Rattle.std.specs.Prelude.{◌≡◌, [], ◌∷◌, IfOk};
ghost use Rattle.bv_terms.specs.Values.{value_at};
ghost use Rattle.step_terms.specs.Division.{extended, high_product};
ghost use Rattle.step_terms.specs.Made.{Grows, IsMade, IsTerm};

use crate::make::{operation, part, sign_extended, zero_extended};
use bv_rewrite::rewrite::Rewrite;
use bv_terms::node::{BinOp, TermId};
use bv_terms::pool::TermPool;
use odr_list::memory::Memory;

// A word with copies of its sign in front.
fn wide_signed(pool: &mut TermPool<'_>, word: TermId) -> Result<TermId, Memory>
    requires { IsTerm pool.old 32 word.number }
    ensures made { IfOk result (λ id. IsMade pool.old pool.new (word.number ∷ []) 64 (λ w. extended (value_at w pool.old word.number)) id.number) }
    ensures grows { Grows pool.old pool.new }
{
    sign_extended(pool, word, 64)
}

// A word with zeros in front.
fn wide(pool: &mut TermPool<'_>, word: TermId) -> Result<TermId, Memory>
    requires { IsTerm pool.old 32 word.number }
    ensures made { IfOk result (λ id. IsMade pool.old pool.new (word.number ∷ []) 64 (λ w. value_at w pool.old word.number) id.number) }
    ensures grows { Grows pool.old pool.new }
{
    zero_extended(pool, word, 64)
}

// The high word of a product of two terms of 64 bits.
fn high_word<R: Rewrite>(
    pool: &mut TermPool<'_>,
    book: &R,
    left: TermId,
    right: TermId,
) -> Result<TermId, Memory>
    requires left { IsTerm pool.old 64 left.number }
    requires right { IsTerm pool.old 64 right.number }
    ensures made { IfOk result (λ id. IsMade pool.old pool.new (left.number ∷ right.number ∷ []) 32 (λ w. high_product (value_at w pool.old left.number) (value_at w pool.old right.number)) id.number) }
    ensures grows { Grows pool.old pool.new }
{
    let product = operation(pool, book, BinOp::Mul, left, right)?;
    part(pool, product, 63, 32)
}

/// The high word of the product of two signed words.
pub fn high_signed<R: Rewrite>(
    pool: &mut TermPool<'_>,
    book: &R,
    left: TermId,
    right: TermId,
) -> Result<TermId, Memory>
    requires left { IsTerm pool.old 32 left.number }
    requires right { IsTerm pool.old 32 right.number }
    ensures made { IfOk result (λ id. IsMade pool.old pool.new (left.number ∷ right.number ∷ []) 32 (λ w. high_product (extended (value_at w pool.old left.number)) (extended (value_at w pool.old right.number))) id.number) }
    ensures grows { Grows pool.old pool.new }
{
    let left = wide_signed(pool, left)?;
    let right = wide_signed(pool, right)?;
    high_word(pool, book, left, right)
}

/// The high word of the product of a signed word and an unsigned one.
pub fn high_mixed<R: Rewrite>(
    pool: &mut TermPool<'_>,
    book: &R,
    left: TermId,
    right: TermId,
) -> Result<TermId, Memory>
    requires left { IsTerm pool.old 32 left.number }
    requires right { IsTerm pool.old 32 right.number }
    ensures made { IfOk result (λ id. IsMade pool.old pool.new (left.number ∷ right.number ∷ []) 32 (λ w. high_product (extended (value_at w pool.old left.number)) (value_at w pool.old right.number)) id.number) }
    ensures grows { Grows pool.old pool.new }
{
    let left = wide_signed(pool, left)?;
    let right = wide(pool, right)?;
    high_word(pool, book, left, right)
}

/// The high word of the product of two unsigned words.
pub fn high_unsigned<R: Rewrite>(
    pool: &mut TermPool<'_>,
    book: &R,
    left: TermId,
    right: TermId,
) -> Result<TermId, Memory>
    requires left { IsTerm pool.old 32 left.number }
    requires right { IsTerm pool.old 32 right.number }
    ensures made { IfOk result (λ id. IsMade pool.old pool.new (left.number ∷ right.number ∷ []) 32 (λ w. high_product (value_at w pool.old left.number) (value_at w pool.old right.number)) id.number) }
    ensures grows { Grows pool.old pool.new }
{
    let left = wide(pool, left)?;
    let right = wide(pool, right)?;
    high_word(pool, book, left, right)
}
