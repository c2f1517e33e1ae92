//! Readers of operands.
ghost use Rattle.std.specs.Prelude.{◌≡◌, ◌<◌, ◌≤◌, ◌*◌, ◌%◌, ◌≤ℤ◌, ◌<ℤ◌, ◌^◌, pos, neg_ℤ, IfSome, nat_abs, Some, None, if◌then◌else◌};
ghost use Rattle.rv32_decode.specs.Valid.{FitsTwelveBits, IsUpperImmediate};
ghost use Rattle.rv32_asm.specs.Reading.{Gives, mark_at};
ghost use Rattle.rv32_asm.specs.Operands.{reaches as in_reach, target_at, next_register_at, next_number_at, next_unsigned_at, next_target_at, two_registers_at, base_at, next_base_at, indexed_at, upper_at, exchange_at};
ghost use Rattle.rv32_asm.specs.Seen.{target_of, IsWithin, Reaches};

use crate::code::Target;
use crate::number::number;
use crate::reader::{after_mark, is_name, number_in, register_in, word};

/// An even offset from `-reach` to `reach - 2`, where it is one.
pub(crate) fn offset(value: i64, reach: u32) -> Option<i32>
    requires { reach ≤ 2 ^ 20 }
    ensures value { Gives (λ x. x) result (if in_reach reach value then Some value else None) }
    ensures within { IfSome result (Reaches reach) }
{
    let reach = i64::from(reach);
    if -reach <= value && value < reach && value % 2 == 0 {
        Some(value as i32)
    } else {
        None
    }
}

#[tactic(auto, unfolding(crate::specs::Operands::target_at))]
pub(crate) fn target(bytes: &[u8], reach: u32) -> Option<(Target<'_>, &[u8])>
    requires { reach ≤ 2 ^ 20 }
    ensures value { Gives (λ x. (target_of x.0, x.1.now)) result (target_at reach bytes.now) }
    ensures within { IfSome result (λ x. IsWithin reach (target_of x.0)) }
{
    let (word, rest) = word(bytes)?;
    if is_name(word) {
        return Some((Target::Name(word), rest));
    }
    let offset = offset(number(word)?, reach)?;
    Some((Target::Offset(offset), rest))
}

fn after_comma(bytes: &[u8]) -> Option<&[u8]>
    ensures { Gives (λ x. x.now) result (mark_at 44 bytes.now) }
{
    after_mark(bytes, b',')
}

#[tactic(auto, unfolding(crate::specs::Operands::next_register_at))]
pub(crate) fn next_register(bytes: &[u8]) -> Option<(u8, &[u8])>
    ensures value { Gives (λ x. (x.0, x.1.now)) result (next_register_at bytes.now) }
    ensures below { IfSome result (λ x. x.0 < 32) }
{
    register_in(after_comma(bytes)?)
}

/// A number from `low` to `high`.
#[tactic(auto, unfolding(crate::specs::Operands::next_number_at))]
pub(crate) fn next_number(bytes: &[u8], low: i32, high: i32) -> Option<(i32, &[u8])>
    ensures value { Gives (λ x. (x.0, x.1.now)) result (next_number_at low high bytes.now) }
    ensures low { IfSome result (λ x. low ≤ℤ x.0) }
    ensures high { IfSome result (λ x. x.0 ≤ℤ high) }
{
    let (number, rest) = number_in(after_comma(bytes)?, i64::from(low), i64::from(high))?;
    Some((number as i32, rest))
}

/// A number from 0 to `most`.
#[tactic(auto, unfolding(crate::specs::Operands::next_unsigned_at))]
pub(crate) fn next_unsigned(bytes: &[u8], most: i32) -> Option<(u32, &[u8])>
    requires { pos 0 ≤ℤ most }
    ensures value { Gives (λ x. (x.0, x.1.now)) result (next_unsigned_at (nat_abs most) bytes.now) }
    ensures most { IfSome result (λ x. x.0 ≤ nat_abs most) }
{
    let (number, rest) = next_number(bytes, 0, most)?;
    Some((number as u32, rest))
}

#[tactic(auto, unfolding(crate::specs::Operands::next_target_at))]
pub(crate) fn next_target(bytes: &[u8], reach: u32) -> Option<(Target<'_>, &[u8])>
    requires { reach ≤ 2 ^ 20 }
    ensures value { Gives (λ x. (target_of x.0, x.1.now)) result (next_target_at reach bytes.now) }
    ensures within { IfSome result (λ x. IsWithin reach (target_of x.0)) }
{
    target(after_comma(bytes)?, reach)
}

#[tactic(auto, unfolding(crate::specs::Operands::two_registers_at))]
pub(crate) fn two_registers(bytes: &[u8]) -> Option<((u8, u8), &[u8])>
    ensures value { Gives (λ x. (x.0, x.1.now)) result (two_registers_at bytes.now) }
    ensures first { IfSome result (λ x. (x.0).0 < 32) }
    ensures second { IfSome result (λ x. (x.0).1 < 32) }
{
    let (first, rest) = register_in(bytes)?;
    let (second, rest) = next_register(rest)?;
    Some(((first, second), rest))
}

/// A register in parentheses.
#[tactic(auto, unfolding(crate::specs::Operands::base_at))]
pub(crate) fn base(bytes: &[u8]) -> Option<(u8, &[u8])>
    ensures value { Gives (λ x. (x.0, x.1.now)) result (base_at bytes.now) }
    ensures below { IfSome result (λ x. x.0 < 32) }
{
    let (base, rest) = register_in(after_mark(bytes, b'(')?)?;
    Some((base, after_mark(rest, b')')?))
}

#[tactic(auto, unfolding(crate::specs::Operands::next_base_at))]
pub(crate) fn next_base(bytes: &[u8]) -> Option<(u8, &[u8])>
    ensures value { Gives (λ x. (x.0, x.1.now)) result (next_base_at bytes.now) }
    ensures below { IfSome result (λ x. x.0 < 32) }
{
    base(after_comma(bytes)?)
}

/// A register, then an offset of twelve bits and a base.
#[tactic(auto, unfolding(crate::specs::Operands::indexed_at))]
pub(crate) fn indexed(bytes: &[u8]) -> Option<((u8, i32, u8), &[u8])>
    ensures value { Gives (λ x. (x.0, x.1.now)) result (indexed_at bytes.now) }
    ensures register { IfSome result (λ x. (x.0).0 < 32) }
    ensures offset { IfSome result (λ x. FitsTwelveBits (x.0).1) }
    ensures base { IfSome result (λ x. (x.0).2 < 32) }
{
    let (register, rest) = register_in(bytes)?;
    let (offset, rest) = next_number(rest, -2048, 2047)?;
    let (base, rest) = base(rest)?;
    Some(((register, offset, base), rest))
}

/// A register, and a number that stands for the upper 20 bits.
#[tactic(auto, unfolding(crate::specs::Operands::upper_at))]
pub(crate) fn upper(bytes: &[u8]) -> Option<((u8, u32), &[u8])>
    ensures value { Gives (λ x. (x.0, x.1.now)) result (upper_at bytes.now) }
    ensures register { IfSome result (λ x. (x.0).0 < 32) }
    ensures immediate { IfSome result (λ x. IsUpperImmediate (x.0).1) }
{
    let (rd, rest) = register_in(bytes)?;
    let (number, rest) = next_unsigned(rest, 1_048_575)?;
    Some(((rd, number * 4096), rest))
}

/// A register that is written, one that is stored, and a base.
#[tactic(auto, unfolding(crate::specs::Operands::exchange_at))]
pub(crate) fn exchange(bytes: &[u8]) -> Option<((u8, u8, u8), &[u8])>
    ensures value { Gives (λ x. (x.0, x.1.now)) result (exchange_at bytes.now) }
    ensures rd { IfSome result (λ x. (x.0).0 < 32) }
    ensures rs2 { IfSome result (λ x. (x.0).1 < 32) }
    ensures base { IfSome result (λ x. (x.0).2 < 32) }
{
    let ((rd, rs2), rest) = two_registers(bytes)?;
    let (base, rest) = next_base(rest)?;
    Some(((rd, rs2, base), rest))
}
