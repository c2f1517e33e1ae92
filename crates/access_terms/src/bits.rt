//! Tests as terms of one bit.
ghost use Rattle.std.specs.Prelude.{◌≡◌, ◌/◌, ◌%◌, ◌^◌, ◌<◌, ◌≤◌, ◌+◌, ◌&&◌, [], ◌∷◌, IfOk, Some, bit_and, nat_eq, nat_le, nat_lt, slice_get};
ghost use Rattle.bv_terms.specs.BitVectors.{bit_of};
ghost use Rattle.bv_terms.specs.Shapes.{Const};
ghost use Rattle.bv_terms.specs.Values.{value_at};
ghost use Rattle.step_terms.specs.Made.{Grows, IsMade, IsTerm};

use bv_rewrite::rewrite::Rewrite;
use bv_terms::node::{BinOp, Node, TermId};
use bv_terms::pool::TermPool;
use odr_list::memory::Memory;
use step_terms::make::{self, operation, part};
use step_terms::word::of_words;

/// The outcome of a test, as a constant of one bit.
pub fn constant_bit(pool: &mut TermPool<'_>, test: bool) -> Result<TermId, Memory>
    ensures node { IfOk result (λ id. slice_get pool.new id.number ≡ Some (Const 1 (bit_of test))) }
    ensures made { IfOk result (λ id. IsMade pool.old pool.new [] 1 (λ _. bit_of test) id.number) }
    ensures grows { Grows pool.old pool.new }
{
    pool.add(Node::Const {
        width: 1,
        value: u64::from(test),
    })
}

/// Whether two tests both hold.
pub fn both<R: Rewrite>(
    pool: &mut TermPool<'_>,
    book: &R,
    left: TermId,
    right: TermId,
) -> Result<TermId, Memory>
    requires left { IsTerm pool.old 1 left.number }
    requires right { IsTerm pool.old 1 right.number }
    ensures made { IfOk result (λ id. IsMade pool.old pool.new (left.number ∷ right.number ∷ []) 1
        (λ w. bit_and (value_at w pool.old left.number) (value_at w pool.old right.number)) id.number) }
    ensures grows { Grows pool.old pool.new }
{
    operation(pool, book, BinOp::And, left, right)
}

/// Whether a word is one of `count` numbers from `first` on.
pub fn within<R: Rewrite>(
    pool: &mut TermPool<'_>,
    book: &R,
    word: TermId,
    first: u32,
    count: u32,
) -> Result<TermId, Memory>
    requires word { IsTerm pool.old 32 word.number }
    requires span { first + count ≤ 2 ^ 32 }
    ensures made { IfOk result (λ id. IsMade pool.old pool.new (word.number ∷ []) 1
        (λ w. bit_of (nat_le first (value_at w pool.old word.number) && nat_lt (value_at w pool.old word.number) (first + count))) id.number) }
    ensures grows { Grows pool.old pool.new }
{
    let width = pool.width(word);
    prove!(width == 32);
    let start = make::word(pool, first)?;
    let size = make::word(pool, count)?;
    let distance = of_words(pool, book, BinOp::Sub, word, start)?;
    of_words(pool, book, BinOp::Ult, distance, size)
}

/// Whether two bits of a word, of which the low one has this place, are zero.
pub fn two_bits_are_zero<R: Rewrite>(
    pool: &mut TermPool<'_>,
    book: &R,
    word: TermId,
    low: u8,
) -> Result<TermId, Memory>
    requires word { IsTerm pool.old 32 word.number }
    requires low { low < 31 }
    ensures made { IfOk result (λ id. IsMade pool.old pool.new (word.number ∷ []) 1
        (λ w. bit_of (nat_eq (value_at w pool.old word.number / 2 ^ low % 2 ^ 2) 0)) id.number) }
    ensures grows { Grows pool.old pool.new }
{
    let bits = part(pool, word, low + 1, low)?;
    let zero = make::constant(pool, 2, 0)?;
    operation(pool, book, BinOp::Eq, bits, zero)
}
