//! Words of bytes, and bytes of words.
ghost use Rattle.std.specs.Prelude.{◌≡◌, ◌+◌, ◌*◌, ◌/◌, ◌%◌, ◌^◌, ◌<◌, [], ◌∷◌, IfOk, length};
ghost use Rattle.elf_image.specs.Memory.{number_of};
ghost use Rattle.rv_model.specs.Values.{extended, load_size};
ghost use Rattle.bv_terms.specs.Values.{value_at};
ghost use Rattle.step_terms.specs.Bytes.{AreBytes, numbers, values};
ghost use Rattle.step_terms.specs.Made.{Grows, IsMade, IsTerm};

use crate::make::{operation, part, sign_extended, zero_extended};
use bv_rewrite::rewrite::Rewrite;
use bv_terms::node::{BinOp, TermId};
use bv_terms::pool::TermPool;
use odr_list::memory::Memory;
use rv32_decode::instr::LoadOp;

// The number of two bytes, the low one first.
fn half<R: Rewrite>(
    pool: &mut TermPool<'_>,
    book: &R,
    low: TermId,
    high: TermId,
) -> Result<TermId, Memory>
    requires low { IsTerm pool.old 8 low.number }
    requires high { IsTerm pool.old 8 high.number }
    ensures made { IfOk result (λ id. IsMade pool.old pool.new (low.number ∷ high.number ∷ []) 16 (λ w. value_at w pool.old low.number + 2 ^ 8 * value_at w pool.old high.number) id.number) }
    ensures grows { Grows pool.old pool.new }
{
    operation(pool, book, BinOp::Concat, high, low)
}

// The number of two halves, the low one first.
fn whole<R: Rewrite>(
    pool: &mut TermPool<'_>,
    book: &R,
    low: TermId,
    high: TermId,
) -> Result<TermId, Memory>
    requires low { IsTerm pool.old 16 low.number }
    requires high { IsTerm pool.old 16 high.number }
    ensures made { IfOk result (λ id. IsMade pool.old pool.new (low.number ∷ high.number ∷ []) 32 (λ w. value_at w pool.old low.number + 2 ^ 16 * value_at w pool.old high.number) id.number) }
    ensures grows { Grows pool.old pool.new }
{
    operation(pool, book, BinOp::Concat, high, low)
}

/// A word of four bytes, the lowest first.
pub fn word_of<R: Rewrite>(
    pool: &mut TermPool<'_>,
    book: &R,
    bytes: &[TermId],
) -> Result<TermId, Memory>
    requires bytes { AreBytes pool.old bytes.now }
    requires four { length bytes.now ≡ 4 }
    ensures made { IfOk result (λ id. IsMade pool.old pool.new (numbers bytes.now) 32 (λ w. number_of (values w pool.old bytes.now)) id.number) }
    ensures grows { Grows pool.old pool.new }
{
    let low = half(pool, book, bytes[0], bytes[1])?;
    let high = half(pool, book, bytes[2], bytes[3])?;
    whole(pool, book, low, high)
}

// A signed byte as a word.
fn signed_byte(pool: &mut TermPool<'_>, bytes: &[TermId]) -> Result<TermId, Memory>
    requires bytes { AreBytes pool.old bytes.now }
    requires one { length bytes.now ≡ 1 }
    ensures made { IfOk result (λ id. IsMade pool.old pool.new (numbers bytes.now) 32 (λ w. extended LoadOp.Lb (number_of (values w pool.old bytes.now))) id.number) }
    ensures grows { Grows pool.old pool.new }
{
    sign_extended(pool, bytes[0], 32)
}

// An unsigned byte as a word.
fn byte(pool: &mut TermPool<'_>, bytes: &[TermId]) -> Result<TermId, Memory>
    requires bytes { AreBytes pool.old bytes.now }
    requires one { length bytes.now ≡ 1 }
    ensures made { IfOk result (λ id. IsMade pool.old pool.new (numbers bytes.now) 32 (λ w. number_of (values w pool.old bytes.now)) id.number) }
    ensures grows { Grows pool.old pool.new }
{
    zero_extended(pool, bytes[0], 32)
}

// A signed half as a word.
fn signed_half<R: Rewrite>(
    pool: &mut TermPool<'_>,
    book: &R,
    bytes: &[TermId],
) -> Result<TermId, Memory>
    requires bytes { AreBytes pool.old bytes.now }
    requires two { length bytes.now ≡ 2 }
    ensures made { IfOk result (λ id. IsMade pool.old pool.new (numbers bytes.now) 32 (λ w. extended LoadOp.Lh (number_of (values w pool.old bytes.now))) id.number) }
    ensures grows { Grows pool.old pool.new }
{
    let half = half(pool, book, bytes[0], bytes[1])?;
    sign_extended(pool, half, 32)
}

// An unsigned half as a word.
fn unsigned_half<R: Rewrite>(
    pool: &mut TermPool<'_>,
    book: &R,
    bytes: &[TermId],
) -> Result<TermId, Memory>
    requires bytes { AreBytes pool.old bytes.now }
    requires two { length bytes.now ≡ 2 }
    ensures made { IfOk result (λ id. IsMade pool.old pool.new (numbers bytes.now) 32 (λ w. number_of (values w pool.old bytes.now)) id.number) }
    ensures grows { Grows pool.old pool.new }
{
    let half = half(pool, book, bytes[0], bytes[1])?;
    zero_extended(pool, half, 32)
}

/// The word that a load puts into its register, from its bytes, the lowest first.
pub fn loaded<R: Rewrite>(
    pool: &mut TermPool<'_>,
    book: &R,
    op: LoadOp,
    bytes: &[TermId],
) -> Result<TermId, Memory>
    requires bytes { AreBytes pool.old bytes.now }
    requires count { length bytes.now ≡ load_size op }
    ensures made { IfOk result (λ id. IsMade pool.old pool.new (numbers bytes.now) 32 (λ w. extended op (number_of (values w pool.old bytes.now))) id.number) }
    ensures grows { Grows pool.old pool.new }
{
    match op {
        LoadOp::Lb => signed_byte(pool, bytes),
        LoadOp::Lh => signed_half(pool, book, bytes),
        LoadOp::Lw => word_of(pool, book, bytes),
        LoadOp::Lbu => byte(pool, bytes),
        LoadOp::Lhu => unsigned_half(pool, book, bytes),
    }
}

/// A byte of a word, by its place from the lowest on.
pub fn stored(pool: &mut TermPool<'_>, word: TermId, place: u8) -> Result<TermId, Memory>
    requires word { IsTerm pool.old 32 word.number }
    requires place { place < 4 }
    ensures made { IfOk result (λ id. IsMade pool.old pool.new (word.number ∷ []) 8 (λ w. value_at w pool.old word.number / 2 ^ (8 * place) % 2 ^ 8) id.number) }
    ensures grows { Grows pool.old pool.new }
{
    let low = 8 * place;
    part(pool, word, low + 7, low)
}
