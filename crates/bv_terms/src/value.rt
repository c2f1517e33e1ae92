//! The values of operations on bit vectors.
ghost use Rattle.std.specs.Prelude.{◌≡◌, ◌<◌, ◌≤◌, ◌+◌, ◌-◌, ◌*◌, ◌%◌, ◌^◌, nat_eq, nat_lt, if◌then◌else◌};
ghost use Rattle.bv_terms.specs.BitVectors.{ashr_value, bin_value, bit_of, bits, byte_value, extract_value, is_negative, is_signed_less, lshr_if, lshr_value, neg_value, not_value, shl_value, sign_extend_value, udiv_value, urem_value};
ghost use Rattle.bv_terms.specs.Fitting.{AreOperands, IsBits};

use crate::bits::Bits;
use crate::node::BinOp;

// How many values so many bits have.
fn count(width: u8) -> u128
    requires { width ≤ 64 }
    ensures count { result ≡ 2 ^ width }
    ensures at_least { 1 ≤ result }
    ensures at_most { result ≤ 2 ^ 64 }
{
    2u128.pow(width as u32)
}

// The low bits of a number.
fn low_bits(width: u8, number: u128) -> u64
    requires { width ≤ 64 }
    ensures { result ≡ number % 2 ^ width }
{
    (number % count(width)) as u64
}

// All bits set.
fn ones(width: u8) -> u64
    requires { width ≤ 64 }
    ensures { result ≡ 2 ^ width - 1 }
{
    (count(width) - 1) as u64
}

// Whether the highest bit is set.
fn negative(a: Bits) -> bool
    requires { IsBits a.width a.value }
    ensures { result ≡ is_negative (bits a.width a.value) }
{
    count(a.width - 1) <= a.value as u128
}

// A truth value as one bit.
fn bit(truth: bool) -> u64
    ensures { result ≡ bit_of truth }
{
    if truth { 1 } else { 0 }
}

/// Each bit turned round.
pub fn inverse(a: Bits) -> u64
    requires { IsBits a.width a.value }
    ensures { result ≡ not_value (bits a.width a.value) }
{
    ones(a.width) - a.value
}

/// The negative, in two's complement.
pub fn negative_of(a: Bits) -> u64
    requires { IsBits a.width a.value }
    ensures { result ≡ neg_value (bits a.width a.value) }
{
    low_bits(a.width, count(a.width) - a.value as u128)
}

fn sum(a: Bits, b: Bits) -> u64
    requires { IsBits a.width a.value }
    ensures { result ≡ (a.value + b.value) % 2 ^ a.width }
{
    low_bits(a.width, a.value as u128 + b.value as u128)
}

fn difference(a: Bits, b: Bits) -> u64
    requires left { IsBits a.width a.value }
    requires right { IsBits a.width b.value }
    ensures { result ≡ (a.value + (2 ^ a.width - b.value)) % 2 ^ a.width }
{
    low_bits(
        a.width,
        a.value as u128 + (count(a.width) - b.value as u128),
    )
}

fn product(a: Bits, b: Bits) -> u64
    requires { IsBits a.width a.value }
    ensures { result ≡ a.value * b.value % 2 ^ a.width }
{
    low_bits(a.width, a.value as u128 * b.value as u128)
}

fn quotient(a: Bits, b: Bits) -> u64
    requires { IsBits a.width a.value }
    ensures { result ≡ udiv_value (bits a.width a.value) (bits b.width b.value) }
{
    if b.value == 0 {
        ones(a.width)
    } else {
        a.value / b.value
    }
}

fn remainder(a: Bits, b: Bits) -> u64
    ensures { result ≡ urem_value (bits a.width a.value) (bits b.width b.value) }
{
    if b.value == 0 {
        a.value
    } else {
        a.value % b.value
    }
}

fn shifted_left(a: Bits, b: Bits) -> u64
    requires { IsBits a.width a.value }
    ensures { result ≡ shl_value (bits a.width a.value) (bits b.width b.value) }
{
    if b.value < a.width as u64 {
        low_bits(a.width, a.value as u128 * count(b.value as u8))
    } else {
        0
    }
}

// A number of so many bits shifted to the right, with zeros from the left.
fn shifted_right(width: u8, value: u64, by: u64) -> u64
    requires { width ≤ 64 }
    ensures { result ≡ lshr_if (nat_lt by width) value by }
{
    if by < width as u64 {
        (value as u128 / count(by as u8)) as u64
    } else {
        0
    }
}

fn shifted_signed(a: Bits, b: Bits) -> u64
    requires { IsBits a.width a.value }
    ensures { result ≡ ashr_value (bits a.width a.value) (bits b.width b.value) }
{
    if negative(a) {
        ones(a.width) - shifted_right(a.width, inverse(a), b.value)
    } else {
        shifted_right(a.width, a.value, b.value)
    }
}

fn signed_less(a: Bits, b: Bits) -> bool
    requires left { IsBits a.width a.value }
    requires right { IsBits b.width b.value }
    ensures { result ≡ is_signed_less (bits a.width a.value) (bits b.width b.value) }
{
    let left = negative(a);
    let right = negative(b);
    (left && !right) || (!(right && !left) && a.value < b.value)
}

fn joined(a: Bits, b: Bits) -> u64
    requires left { IsBits a.width a.value }
    requires right { IsBits b.width b.value }
    requires width { a.width + b.width ≤ 64 }
    ensures { result ≡ a.value * 2 ^ b.width + b.value }
{
    (a.value as u128 * count(b.width) + b.value as u128) as u64
}

/// The value of an operation on two bit vectors.
pub fn operation(op: BinOp, a: Bits, b: Bits) -> u64
    requires left { IsBits a.width a.value }
    requires right { IsBits b.width b.value }
    requires operands { AreOperands op a.width b.width }
    ensures { result ≡ bin_value op (bits a.width a.value) (bits b.width b.value) }
{
    match op {
        BinOp::And => a.value & b.value,
        BinOp::Or => a.value | b.value,
        BinOp::Xor => a.value ^ b.value,
        BinOp::Add => sum(a, b),
        BinOp::Sub => difference(a, b),
        BinOp::Mul => product(a, b),
        BinOp::Udiv => quotient(a, b),
        BinOp::Urem => remainder(a, b),
        BinOp::Shl => shifted_left(a, b),
        BinOp::Lshr => shifted_right(a.width, a.value, b.value),
        BinOp::Ashr => shifted_signed(a, b),
        BinOp::Eq => bit(a.value == b.value),
        BinOp::Ult => bit(a.value < b.value),
        BinOp::Slt => bit(signed_less(a, b)),
        BinOp::Concat => joined(a, b),
    }
}

/// The bits from `low` up to `high`, both included.
pub fn part(a: Bits, high: u8, low: u8) -> u64
    requires bits { IsBits a.width a.value }
    requires order { low ≤ high }
    requires within { high < a.width }
    ensures { result ≡ extract_value (bits a.width a.value) high low }
{
    low_bits(high - low + 1, a.value as u128 / count(low))
}

/// The value with copies of the highest bit in front, up to a width.
pub fn with_signs(a: Bits, width: u8) -> u64
    requires bits { IsBits a.width a.value }
    requires wider { a.width ≤ width }
    requires within { width ≤ 64 }
    ensures { result ≡ sign_extend_value (bits a.width a.value) width }
{
    if negative(a) {
        (a.value as u128 + (count(width) - count(a.width))) as u64
    } else {
        a.value
    }
}

/// One of two values, as one bit chooses: the first where it is 1.
pub fn chosen(when: Bits, yes: Bits, no: Bits) -> u64
    ensures { result ≡ (if nat_eq when.value 1 then yes.value else no.value) }
{
    if when.value == 1 { yes.value } else { no.value }
}

/// The entry of a table at an index that counts from `first`, 0 outside the table.
pub fn entry(first: u32, bytes: &[u8], index: u64) -> u64
    ensures { result ≡ byte_value first bytes.now index }
{
    if index < first as u64 {
        return 0;
    }
    match bytes.get((index - first as u64) as usize) {
        Some(byte) => *byte as u64,
        None => 0,
    }
}
