//! The register instructions of RV32I and of the extension M.
ghost use Rattle.std.specs.Prelude.{◌≡◌, [], ◌∷◌, IfOk};
ghost use Rattle.rv_model.specs.Values.{alu_of, imm_of, operation_of, word_of};
ghost use Rattle.bv_terms.specs.Values.{value_at};
ghost use Rattle.step_terms.specs.Made.{Grows, IsMade, IsTerm};

use crate::division::{divided, signed_remainder};
use crate::make::constant;
use crate::product::{high_mixed, high_signed, high_unsigned};
use crate::shift::shifted;
use crate::word::{compared, of_words};
use bv_rewrite::rewrite::Rewrite;
use bv_terms::node::{BinOp, TermId};
use bv_terms::pool::TermPool;
use odr_list::memory::Memory;
use rv32_decode::instr::{AluOp, ImmOp};

/// What an operation of two registers writes.
pub fn alu<R: Rewrite>(
    pool: &mut TermPool<'_>,
    book: &R,
    op: AluOp,
    left: TermId,
    right: TermId,
) -> Result<TermId, Memory>
    requires left { IsTerm pool.old 32 left.number }
    requires right { IsTerm pool.old 32 right.number }
    ensures made { IfOk result (λ id. IsMade pool.old pool.new (left.number ∷ right.number ∷ []) 32 (λ w. alu_of op (value_at w pool.old left.number) (value_at w pool.old right.number)) id.number) }
    ensures grows { Grows pool.old pool.new }
{
    let left_width = pool.width(left);
    let right_width = pool.width(right);
    prove!(left_width == right_width);
    match op {
        AluOp::Add => of_words(pool, book, BinOp::Add, left, right),
        AluOp::Sub => of_words(pool, book, BinOp::Sub, left, right),
        AluOp::Sll => shifted(pool, book, BinOp::Shl, left, right),
        AluOp::Slt => compared(pool, book, BinOp::Slt, left, right),
        AluOp::Sltu => compared(pool, book, BinOp::Ult, left, right),
        AluOp::Xor => of_words(pool, book, BinOp::Xor, left, right),
        AluOp::Srl => shifted(pool, book, BinOp::Lshr, left, right),
        AluOp::Sra => shifted(pool, book, BinOp::Ashr, left, right),
        AluOp::Or => of_words(pool, book, BinOp::Or, left, right),
        AluOp::And => of_words(pool, book, BinOp::And, left, right),
        AluOp::Mul => of_words(pool, book, BinOp::Mul, left, right),
        AluOp::Mulh => high_signed(pool, book, left, right),
        AluOp::Mulhsu => high_mixed(pool, book, left, right),
        AluOp::Mulhu => high_unsigned(pool, book, left, right),
        AluOp::Div => divided(pool, book, left, right),
        AluOp::Divu => of_words(pool, book, BinOp::Udiv, left, right),
        AluOp::Rem => signed_remainder(pool, book, left, right),
        AluOp::Remu => of_words(pool, book, BinOp::Urem, left, right),
    }
}

// The operation of an immediate form.
fn operation(op: ImmOp) -> AluOp
    ensures { result ≡ operation_of op }
{
    match op {
        ImmOp::Addi => AluOp::Add,
        ImmOp::Slti => AluOp::Slt,
        ImmOp::Sltiu => AluOp::Sltu,
        ImmOp::Xori => AluOp::Xor,
        ImmOp::Ori => AluOp::Or,
        ImmOp::Andi => AluOp::And,
        ImmOp::Slli => AluOp::Sll,
        ImmOp::Srli => AluOp::Srl,
        ImmOp::Srai => AluOp::Sra,
    }
}

/// The word of a signed number, as a constant.
pub fn signed_constant(pool: &mut TermPool<'_>, number: i32) -> Result<TermId, Memory>
    ensures made { IfOk result (λ id. IsMade pool.old pool.new [] 32 (λ _. word_of number) id.number) }
    ensures grows { Grows pool.old pool.new }
{
    constant(pool, 32, u64::from(number.cast_unsigned()))
}

/// What an operation of a register and an immediate writes.
pub fn imm_alu<R: Rewrite>(
    pool: &mut TermPool<'_>,
    book: &R,
    op: ImmOp,
    left: TermId,
    imm: i32,
) -> Result<TermId, Memory>
    requires { IsTerm pool.old 32 left.number }
    ensures made { IfOk result (λ id. IsMade pool.old pool.new (left.number ∷ []) 32 (λ w. imm_of op (value_at w pool.old left.number) imm) id.number) }
    ensures grows { Grows pool.old pool.new }
{
    let right = signed_constant(pool, imm)?;
    alu(pool, book, operation(op), left, right)
}
