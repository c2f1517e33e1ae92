//! The conditions that tell whether an access writes to a reserved word, and whether two addresses are the same.
ghost use Rattle.std.specs.Prelude.{◌≡◌, ◌-◌, ◌<◌, ◌≤◌, ◌^◌, [], ◌∷◌, IfOk, OnErr, nat_eq};
ghost use Rattle.bv_terms.specs.BitVectors.{bit_of};
ghost use Rattle.bv_terms.specs.Values.{value_at};
ghost use Rattle.clause_store.specs.Formula.{Grows};
ghost use Rattle.encoder.specs.Encodes.{Encodes, IsKnown};
ghost use Rattle.outcome_parts.specs.Rivals.{address_parts, have_same_address, touch_parts, touches};
ghost use Rattle.reader_parts.specs.Conditions.{HasTerms, IsCondition};
ghost use Rattle.step_terms.specs.Made.{Grows as GrowsTerms, IsMade, IsTerm};

use bv_rewrite::rewrite::Rewrite;
use bv_terms::node::{BinOp, TermId};
use bv_terms::pool::TermPool;
use encoder::encoder::Encoder;
use hit_terms::touch::touch;
use odr_list::memory::Memory;
use order_clauses::order_lit::OrderLit;
use std::alloc::Global;
use step_terms::word::of_words;
use thread_terms::access::Access;

// So many of some bytes as reach all words that they do: 2^32 - 1 reach each word.
fn reaching(length: usize) -> u32
    ensures few { length < 2 ^ 32 - 1 → result ≡ length }
    ensures many { 2 ^ 32 - 1 ≤ length → result ≡ 2 ^ 32 - 1 }
{
    if length < u32::MAX as usize {
        length as u32
    } else {
        u32::MAX
    }
}

// Whether an access writes to the word at another one's address.
fn touching<R: Rewrite>(
    pool: &mut TermPool<'_>,
    book: &R,
    writer: &Access,
    reserved: &Access,
) -> Result<TermId, Memory>
    requires writer { HasTerms pool.old writer.now }
    requires reserved { HasTerms pool.old reserved.now }
    ensures made { IfOk result (λ id. IsMade pool.old pool.new (touch_parts writer.now reserved.now) 1
        (λ t. bit_of (touches t pool.old writer.now reserved.now)) id.number) }
    ensures grows { GrowsTerms pool.old pool.new }
{
    let own_width = pool.width(writer.address);
    prove!(own_width == 32);
    let word_width = pool.width(reserved.address);
    prove!(word_width == 32);
    let count = reaching(writer.writes.len());
    let touched = touch(
        pool,
        book,
        writer.guard,
        count,
        writer.address,
        reserved.address,
    )?;
    Ok(touched)
}

// Whether two accesses have one address.
fn same_address<R: Rewrite>(
    pool: &mut TermPool<'_>,
    book: &R,
    left: TermId,
    right: TermId,
) -> Result<TermId, Memory>
    requires left { IsTerm pool.old 32 left.number }
    requires right { IsTerm pool.old 32 right.number }
    ensures made { IfOk result (λ id. IsMade pool.old pool.new (left.number ∷ right.number ∷ []) 1
        (λ t. bit_of (nat_eq (value_at t pool.old left.number) (value_at t pool.old right.number))) id.number) }
    ensures grows { GrowsTerms pool.old pool.new }
{
    of_words(pool, book, BinOp::Eq, left, right)
}

/// What says that one access writes to the word at another one's address: constants decide it.
///
/// # Errors
///
/// `Memory` alone, which leaves older variables and clauses; the encoder isn't to be used any more.
pub fn touch_condition<R: Rewrite>(
    encoder: &mut Encoder<'_>,
    alloc: Global,
    book: &R,
    writer: &Access,
    reserved: &Access,
) -> Result<OrderLit, Memory>
    requires writer { HasTerms encoder.old.pool writer.now }
    requires reserved { HasTerms encoder.old.pool reserved.now }
    requires known { IsKnown encoder.old }
    ensures encodes { IfOk result (λ condition. Encodes encoder.old encoder.new (touch_parts writer.now reserved.now)) }
    ensures condition { IfOk result (λ condition. IsCondition encoder.new (touch_parts writer.now reserved.now)
        (λ t. touches t encoder.old.pool writer.now reserved.now) condition) }
    ensures err { OnErr result (Grows encoder.old.clauses encoder.new.clauses) }
{
    let term = touching(&mut encoder.pool, book, writer, reserved)?;
    let condition = encoder.test(alloc, term)?;
    Ok(condition)
}

/// What says that two accesses have one address: constants decide it.
///
/// # Errors
///
/// As above.
pub fn address_condition<R: Rewrite>(
    encoder: &mut Encoder<'_>,
    alloc: Global,
    book: &R,
    reserved: &Access,
    conditional: &Access,
) -> Result<OrderLit, Memory>
    requires reserved { HasTerms encoder.old.pool reserved.now }
    requires conditional { HasTerms encoder.old.pool conditional.now }
    requires known { IsKnown encoder.old }
    ensures encodes { IfOk result (λ condition. Encodes encoder.old encoder.new (address_parts reserved.now conditional.now)) }
    ensures condition { IfOk result (λ condition. IsCondition encoder.new (address_parts reserved.now conditional.now)
        (λ t. have_same_address t encoder.old.pool reserved.now conditional.now) condition) }
    ensures err { OnErr result (Grows encoder.old.clauses encoder.new.clauses) }
{
    let term = same_address(
        &mut encoder.pool,
        book,
        reserved.address,
        conditional.address,
    )?;
    let condition = encoder.test(alloc, term)?;
    Ok(condition)
}
