//! What the instructions of the extension A compute.
ghost use Rattle.std.specs.Prelude.{◌≡◌, ◌-◌, [], ◌∷◌, IfOk, nat_eq, if◌then◌else◌};
ghost use Rattle.rv_model.specs.Values.{amo_of};
ghost use Rattle.bv_terms.specs.BitVectors.{bin_value, bin_width, bits};
ghost use Rattle.bv_terms.specs.Fitting.{AreOperands};
ghost use Rattle.bv_terms.specs.Values.{value_at};
ghost use Rattle.step_terms.specs.Made.{Grows, IsMade, IsTerm};

use crate::make::{choice, inverse, zero_extended};
use crate::word::of_words;
use bv_rewrite::rewrite::Rewrite;
use bv_terms::node::{BinOp, TermId};
use bv_terms::pool::TermPool;
use odr_list::memory::Memory;
use rv32_decode::instr::AmoOp;

// The first of two words where a comparison holds of them, else the second.
fn first_where<R: Rewrite>(
    pool: &mut TermPool<'_>,
    book: &R,
    op: BinOp,
    left: TermId,
    right: TermId,
) -> Result<TermId, Memory>
    requires left { IsTerm pool.old 32 left.number }
    requires right { IsTerm pool.old 32 right.number }
    requires operands { AreOperands op 32 32 }
    requires bit { bin_width op 32 32 ≡ 1 }
    ensures made { IfOk result (λ id. IsMade pool.old pool.new (left.number ∷ right.number ∷ []) 32 (λ w. if nat_eq (bin_value op (bits 32 (value_at w pool.old left.number)) (bits 32 (value_at w pool.old right.number))) 1 then value_at w pool.old left.number else value_at w pool.old right.number) id.number) }
    ensures grows { Grows pool.old pool.new }
{
    let test = of_words(pool, book, op, left, right)?;
    choice(pool, test, left, right)
}

// The second of two words where a comparison holds of them, else the first.
fn second_where<R: Rewrite>(
    pool: &mut TermPool<'_>,
    book: &R,
    op: BinOp,
    left: TermId,
    right: TermId,
) -> Result<TermId, Memory>
    requires left { IsTerm pool.old 32 left.number }
    requires right { IsTerm pool.old 32 right.number }
    requires operands { AreOperands op 32 32 }
    requires bit { bin_width op 32 32 ≡ 1 }
    ensures made { IfOk result (λ id. IsMade pool.old pool.new (left.number ∷ right.number ∷ []) 32 (λ w. if nat_eq (bin_value op (bits 32 (value_at w pool.old left.number)) (bits 32 (value_at w pool.old right.number))) 1 then value_at w pool.old right.number else value_at w pool.old left.number) id.number) }
    ensures grows { Grows pool.old pool.new }
{
    let test = of_words(pool, book, op, left, right)?;
    choice(pool, test, right, left)
}

// A word that a register holds, beside another.
fn taken_over(pool: &TermPool<'_>, old: TermId, word: TermId) -> TermId
    requires { IsTerm pool.now 32 word.number }
    ensures { IsMade pool.now pool.now (old.number ∷ word.number ∷ []) 32 (λ w. value_at w pool.now word.number) result.number }
{
    word
}

/// What an atomic memory operation stores, from the old word and a register.
pub fn amo<R: Rewrite>(
    pool: &mut TermPool<'_>,
    book: &R,
    op: AmoOp,
    old: TermId,
    word: TermId,
) -> Result<TermId, Memory>
    requires old { IsTerm pool.old 32 old.number }
    requires word { IsTerm pool.old 32 word.number }
    ensures made { IfOk result (λ id. IsMade pool.old pool.new (old.number ∷ word.number ∷ []) 32 (λ w. amo_of op (value_at w pool.old old.number) (value_at w pool.old word.number)) id.number) }
    ensures grows { Grows pool.old pool.new }
{
    let old_width = pool.width(old);
    let word_width = pool.width(word);
    prove!(old_width == word_width);
    match op {
        AmoOp::Swap => Ok(taken_over(pool, old, word)),
        AmoOp::Add => of_words(pool, book, BinOp::Add, old, word),
        AmoOp::Xor => of_words(pool, book, BinOp::Xor, old, word),
        AmoOp::And => of_words(pool, book, BinOp::And, old, word),
        AmoOp::Or => of_words(pool, book, BinOp::Or, old, word),
        AmoOp::Min => first_where(pool, book, BinOp::Slt, old, word),
        AmoOp::Max => second_where(pool, book, BinOp::Slt, old, word),
        AmoOp::Minu => first_where(pool, book, BinOp::Ult, old, word),
        AmoOp::Maxu => second_where(pool, book, BinOp::Ult, old, word),
    }
}

/// The word that a store-conditional puts into its register: 0 where it won, else 1.
pub fn failure(pool: &mut TermPool<'_>, won: TermId) -> Result<TermId, Memory>
    requires { IsTerm pool.old 1 won.number }
    ensures made { IfOk result (λ id. IsMade pool.old pool.new (won.number ∷ []) 32 (λ w. 1 - value_at w pool.old won.number) id.number) }
    ensures grows { Grows pool.old pool.new }
{
    let lost = inverse(pool, won)?;
    zero_extended(pool, lost, 32)
}
