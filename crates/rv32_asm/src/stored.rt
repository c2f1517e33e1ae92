//! Numbers that are stored as data.
ghost use Rattle.std.specs.Prelude.{◌≡◌, ◌<◌, ◌++◌, ◌≤ℤ◌, ◌≤◌, not, length, IfOk, IfSome, IfNone, OnOk, [], ◌∷◌};
ghost use Rattle.std.specs.List.{prefix_len};
ghost use Rattle.rv32_asm.specs.Reading.{Gives, is_blank as blank};
ghost use Rattle.rv32_asm.specs.Statement.{words_of, lowest_of, highest_of, unsigned_of, number_bytes, sized_number_of, numbers_bytes};

use crate::number::number;
use crate::reader::{is_blank, skip_blanks};
use odr_list::memory::Memory;
use std::alloc::Global;

/// What numbers are stored as.
#[derive(Clone, Copy, Debug, PartialEq, Eq)]
pub(crate) enum NumberSize {
    Byte,
    Word,
}

fn lowest(size: NumberSize) -> i64
    ensures { result ≡ lowest_of size }
{
    match size {
        NumberSize::Byte => -128,
        NumberSize::Word => -(1 << 31),
    }
}

fn highest(size: NumberSize) -> i64
    ensures { result ≡ highest_of size }
{
    match size {
        NumberSize::Byte => 255,
        NumberSize::Word => (1 << 32) - 1,
    }
}

#[tactic(auto, unfolding(crate::specs::Statement::sized_number_of))]
fn sized_number(size: NumberSize, word: &[u8]) -> Option<i64>
    ensures value { result ≡ sized_number_of size word.now }
    ensures low { IfSome result (λ z. lowest_of size ≤ℤ z) }
    ensures high { IfSome result (λ z. z ≤ℤ highest_of size) }
{
    let number = number(word)?;
    if lowest(size) <= number && number <= highest(size) {
        Some(number)
    } else {
        None
    }
}

/// Appends a number, negative ones in two's complement, its lowest byte first.
fn push_number(out: &mut Vec<u8>, size: NumberSize, number: i64) -> Result<(), Memory>
    requires low { lowest_of size ≤ℤ number }
    requires high { number ≤ℤ highest_of size }
    ensures { OnOk result (out.new.items ≡ out.old.items ++ number_bytes size number) }
{
    match size {
        NumberSize::Byte => {
            let byte = if number < 0 { number + 256 } else { number };
            out.push(byte as u8)?;
        }
        NumberSize::Word => {
            let word = if number < 0 {
                number + (1 << 32)
            } else {
                number
            };
            out.extend_from_slice(&(word as u32).to_le_bytes())?;
        }
    }
    Ok(())
}

fn plain_len(bytes: &[u8]) -> usize
    ensures count { result ≡ prefix_len (λ b. not (blank b)) bytes.now }
    ensures within { result ≤ length bytes.now }
{
    bytes.iter().take_while(|byte| !is_blank(**byte)).count()
}

/// The first of the words that only blanks separate, and what stands behind it.
fn next_word(bytes: &[u8]) -> Option<(&[u8], &[u8])>
    ensures first { IfSome result (λ x. words_of bytes.now ≡ x.0.now ∷ words_of x.1.now) }
    ensures shorter { IfSome result (λ x. length x.1.now < length bytes.now) }
    ensures none { IfNone result (words_of bytes.now ≡ []) }
{
    let bytes = skip_blanks(bytes);
    let len = plain_len(bytes);
    if len == 0 {
        return None;
    }
    Some(bytes.split_at(len))
}

/// The bytes of numbers that blanks separate, or `None` where a word is no number of this size.
pub(crate) fn numbers(
    alloc: Global,
    size: NumberSize,
    bytes: &[u8],
) -> Result<Option<Vec<u8>>, Memory>
    ensures { IfOk result (λ stored. Gives (λ v. v.items) stored (numbers_bytes size (words_of bytes.now))) }
{
    let mut stored = Vec::new(alloc);
    let mut rest = bytes;
    while let Some((word, after)) = next_word(rest) {
        match sized_number(size, word) {
            Some(number) => push_number(&mut stored, size, number)?,
            None => return Ok(None),
        }
        rest = after;
    }
    Ok(Some(stored))
}
