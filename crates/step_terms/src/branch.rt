//! The tests of branches.
ghost use Rattle.std.specs.Prelude.{◌≡◌, ◌-◌, [], ◌∷◌, IfOk};
ghost use Rattle.rv_model.specs.Values.{taken_of};
ghost use Rattle.bv_terms.specs.BitVectors.{bin_value, bin_width, bit_of, bits};
ghost use Rattle.bv_terms.specs.Fitting.{AreOperands};
ghost use Rattle.bv_terms.specs.Values.{value_at};
ghost use Rattle.step_terms.specs.Made.{Grows, IsMade, IsTerm};

use crate::make::inverse;
use crate::word::of_words;
use bv_rewrite::rewrite::Rewrite;
use bv_terms::node::{BinOp, TermId};
use bv_terms::pool::TermPool;
use odr_list::memory::Memory;
use rv32_decode::instr::BranchOp;

// Whether a comparison of two words fails.
fn fails<R: Rewrite>(
    pool: &mut TermPool<'_>,
    book: &R,
    op: BinOp,
    left: TermId,
    right: TermId,
) -> Result<TermId, Memory>
    requires left { IsTerm pool.old 32 left.number }
    requires right { IsTerm pool.old 32 right.number }
    requires operands { AreOperands op 32 32 }
    requires bit { bin_width op 32 32 ≡ 1 }
    ensures made { IfOk result (λ id. IsMade pool.old pool.new (left.number ∷ right.number ∷ []) 1 (λ w. 1 - bin_value op (bits 32 (value_at w pool.old left.number)) (bits 32 (value_at w pool.old right.number))) id.number) }
    ensures grows { Grows pool.old pool.new }
{
    let test = of_words(pool, book, op, left, right)?;
    inverse(pool, test)
}

/// Whether a branch is taken.
pub fn taken<R: Rewrite>(
    pool: &mut TermPool<'_>,
    book: &R,
    op: BranchOp,
    left: TermId,
    right: TermId,
) -> Result<TermId, Memory>
    requires left { IsTerm pool.old 32 left.number }
    requires right { IsTerm pool.old 32 right.number }
    ensures made { IfOk result (λ id. IsMade pool.old pool.new (left.number ∷ right.number ∷ []) 1 (λ w. bit_of (taken_of op (value_at w pool.old left.number) (value_at w pool.old right.number))) id.number) }
    ensures grows { Grows pool.old pool.new }
{
    let left_width = pool.width(left);
    let right_width = pool.width(right);
    prove!(left_width == right_width);
    match op {
        BranchOp::Beq => of_words(pool, book, BinOp::Eq, left, right),
        BranchOp::Bne => fails(pool, book, BinOp::Eq, left, right),
        BranchOp::Blt => of_words(pool, book, BinOp::Slt, left, right),
        BranchOp::Bge => fails(pool, book, BinOp::Slt, left, right),
        BranchOp::Bltu => of_words(pool, book, BinOp::Ult, left, right),
        BranchOp::Bgeu => fails(pool, book, BinOp::Ult, left, right),
    }
}
