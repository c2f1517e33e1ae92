//! Signed division, by magnitudes and signs.
ghost use Rattle.std.specs.Prelude.{◌≡◌, ◌-◌, ◌^◌, [], ◌∷◌, IfOk, bit_xor, nat_eq, if◌then◌else◌};
ghost use Rattle.bv_terms.specs.BitVectors.{bits, udiv_value, urem_value};
ghost use Rattle.bv_terms.specs.Values.{value_at};
ghost use Rattle.step_terms.specs.Division.{magnitude, negated_if, sign, signed_quotient, signed_remainder};
ghost use Rattle.step_terms.specs.Made.{Grows, IsMade, IsTerm};

use crate::make::{choice, constant, negative, operation, part};
use crate::word::{equals, of_words};
use bv_rewrite::rewrite::Rewrite;
use bv_terms::node::{BinOp, TermId};
use bv_terms::pool::TermPool;
use odr_list::memory::Memory;

// The highest bit of a word.
fn sign(pool: &mut TermPool<'_>, word: TermId) -> Result<TermId, Memory>
    requires { IsTerm pool.old 32 word.number }
    ensures made { IfOk result (λ id. IsMade pool.old pool.new (word.number ∷ []) 1 (λ w. sign (value_at w pool.old word.number)) id.number) }
    ensures grows { Grows pool.old pool.new }
{
    part(pool, word, 31, 31)
}

// A word, or its negative where a bit is set.
fn negated_if(pool: &mut TermPool<'_>, when: TermId, word: TermId) -> Result<TermId, Memory>
    requires when { IsTerm pool.old 1 when.number }
    requires word { IsTerm pool.old 32 word.number }
    ensures made { IfOk result (λ id. IsMade pool.old pool.new (when.number ∷ word.number ∷ []) 32 (λ w. negated_if (value_at w pool.old when.number) (value_at w pool.old word.number)) id.number) }
    ensures grows { Grows pool.old pool.new }
{
    let negated = negative(pool, word)?;
    choice(pool, when, negated, word)
}

// A word without its sign.
fn magnitude(pool: &mut TermPool<'_>, word: TermId) -> Result<TermId, Memory>
    requires { IsTerm pool.old 32 word.number }
    ensures made { IfOk result (λ id. IsMade pool.old pool.new (word.number ∷ []) 32 (λ w. magnitude (value_at w pool.old word.number)) id.number) }
    ensures grows { Grows pool.old pool.new }
{
    let is_negative = sign(pool, word)?;
    negated_if(pool, is_negative, word)
}

// Whether the signs of two words differ.
fn signs_differ<R: Rewrite>(
    pool: &mut TermPool<'_>,
    book: &R,
    left: TermId,
    right: TermId,
) -> Result<TermId, Memory>
    requires left { IsTerm pool.old 32 left.number }
    requires right { IsTerm pool.old 32 right.number }
    ensures made { IfOk result (λ id. IsMade pool.old pool.new (left.number ∷ right.number ∷ []) 1 (λ w. bit_xor (sign (value_at w pool.old left.number)) (sign (value_at w pool.old right.number))) id.number) }
    ensures grows { Grows pool.old pool.new }
{
    let left = sign(pool, left)?;
    let right = sign(pool, right)?;
    operation(pool, book, BinOp::Xor, left, right)
}

// The quotient of the magnitudes of two words.
fn quotient<R: Rewrite>(
    pool: &mut TermPool<'_>,
    book: &R,
    left: TermId,
    right: TermId,
) -> Result<TermId, Memory>
    requires left { IsTerm pool.old 32 left.number }
    requires right { IsTerm pool.old 32 right.number }
    ensures made { IfOk result (λ id. IsMade pool.old pool.new (left.number ∷ right.number ∷ []) 32 (λ w. udiv_value (bits 32 (magnitude (value_at w pool.old left.number))) (bits 32 (magnitude (value_at w pool.old right.number)))) id.number) }
    ensures grows { Grows pool.old pool.new }
{
    let left = magnitude(pool, left)?;
    let right = magnitude(pool, right)?;
    of_words(pool, book, BinOp::Udiv, left, right)
}

// The remainder of the magnitudes of two words.
fn remainder<R: Rewrite>(
    pool: &mut TermPool<'_>,
    book: &R,
    left: TermId,
    right: TermId,
) -> Result<TermId, Memory>
    requires left { IsTerm pool.old 32 left.number }
    requires right { IsTerm pool.old 32 right.number }
    ensures made { IfOk result (λ id. IsMade pool.old pool.new (left.number ∷ right.number ∷ []) 32 (λ w. urem_value (bits 32 (magnitude (value_at w pool.old left.number))) (bits 32 (magnitude (value_at w pool.old right.number)))) id.number) }
    ensures grows { Grows pool.old pool.new }
{
    let left = magnitude(pool, left)?;
    let right = magnitude(pool, right)?;
    of_words(pool, book, BinOp::Urem, left, right)
}

// The quotient of the magnitudes, negative where the signs differ.
fn signed_quotient<R: Rewrite>(
    pool: &mut TermPool<'_>,
    book: &R,
    left: TermId,
    right: TermId,
) -> Result<TermId, Memory>
    requires left { IsTerm pool.old 32 left.number }
    requires right { IsTerm pool.old 32 right.number }
    ensures made { IfOk result (λ id. IsMade pool.old pool.new (left.number ∷ right.number ∷ []) 32 (λ w. signed_quotient (value_at w pool.old left.number) (value_at w pool.old right.number)) id.number) }
    ensures grows { Grows pool.old pool.new }
{
    let size = quotient(pool, book, left, right)?;
    let is_negative = signs_differ(pool, book, left, right)?;
    negated_if(pool, is_negative, size)
}

/// The remainder of the magnitudes, with the sign of the dividend.
pub fn signed_remainder<R: Rewrite>(
    pool: &mut TermPool<'_>,
    book: &R,
    left: TermId,
    right: TermId,
) -> Result<TermId, Memory>
    requires left { IsTerm pool.old 32 left.number }
    requires right { IsTerm pool.old 32 right.number }
    ensures made { IfOk result (λ id. IsMade pool.old pool.new (left.number ∷ right.number ∷ []) 32 (λ w. signed_remainder (value_at w pool.old left.number) (value_at w pool.old right.number)) id.number) }
    ensures grows { Grows pool.old pool.new }
{
    let size = remainder(pool, book, left, right)?;
    let is_negative = sign(pool, left)?;
    negated_if(pool, is_negative, size)
}

/// The quotient of two signed words, rounded to zero; by zero all ones.
pub fn divided<R: Rewrite>(
    pool: &mut TermPool<'_>,
    book: &R,
    left: TermId,
    right: TermId,
) -> Result<TermId, Memory>
    requires left { IsTerm pool.old 32 left.number }
    requires right { IsTerm pool.old 32 right.number }
    ensures made { IfOk result (λ id. IsMade pool.old pool.new (left.number ∷ right.number ∷ []) 32 (λ w. if nat_eq (value_at w pool.old right.number) 0 then 2 ^ 32 - 1 else signed_quotient (value_at w pool.old left.number) (value_at w pool.old right.number)) id.number) }
    ensures grows { Grows pool.old pool.new }
{
    let quotient = signed_quotient(pool, book, left, right)?;
    let by_zero = equals(pool, book, right, 0)?;
    let all_ones = constant(pool, 32, 0xffff_ffff)?;
    choice(pool, by_zero, all_ones, quotient)
}
