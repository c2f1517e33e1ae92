//! Readers of a line from left to right. Each gives what it read and the bytes after it.
ghost use Rattle.std.specs.Prelude.{◌≡◌, ◌<◌, ◌↔◌, ◌||◌, ◌==◌, ◌≤ℤ◌, IsTrue, IfSome, length, ◌≤◌};
ghost use Rattle.std.specs.List.{prefix_len, list_all};
ghost use Rattle.rv32_asm.specs.Reading.{Gives, is_blank as blank, is_mark as mark, is_word as wordly, without_blanks, is_over as over, word_at, mark_at, is_letter as letter, is_digit as digit, begins_name as begins, is_name as named, register_at, number_at, name_at};

use crate::number::number;
use crate::registers::register;

pub(crate) fn is_blank(byte: u8) -> bool
    ensures { result ≡ blank byte }
{
    byte == b' ' || byte == b'\t'
}

fn is_mark(byte: u8) -> bool
    ensures { result ≡ mark byte }
{
    byte == b',' || byte == b'(' || byte == b')' || byte == b':'
}

fn count_blanks(bytes: &[u8]) -> usize
    ensures count { result ≡ prefix_len blank bytes.now }
    ensures within { result ≤ length bytes.now }
{
    bytes.iter().take_while(|byte| is_blank(**byte)).count()
}

fn word_len(bytes: &[u8]) -> usize
    ensures count { result ≡ prefix_len wordly bytes.now }
    ensures within { result ≤ length bytes.now }
{
    bytes
        .iter()
        .take_while(|byte| !(is_blank(**byte) || is_mark(**byte)))
        .count()
}

#[tactic(auto, unfolding(crate::specs::Reading::without_blanks))]
pub(crate) fn skip_blanks(bytes: &[u8]) -> &[u8]
    ensures { result.now ≡ without_blanks bytes.now }
{
    &bytes[count_blanks(bytes)..]
}

/// Whether only blanks are left.
pub(crate) fn is_over(bytes: &[u8]) -> bool
    ensures { result ≡ over bytes.now }
{
    skip_blanks(bytes).is_empty()
}

/// A word, as long as it goes.
#[tactic(auto, unfolding(crate::specs::Reading::word_at))]
pub(crate) fn word(bytes: &[u8]) -> Option<(&[u8], &[u8])>
    ensures { Gives (λ x. (x.0.now, x.1.now)) result (word_at bytes.now) }
{
    let bytes = skip_blanks(bytes);
    let len = word_len(bytes);
    if len == 0 {
        return None;
    }
    Some(bytes.split_at(len))
}

/// This mark.
#[tactic(auto, unfolding(crate::specs::Reading::mark_at))]
pub(crate) fn after_mark(bytes: &[u8], mark: u8) -> Option<&[u8]>
    ensures { Gives (λ x. x.now) result (mark_at mark bytes.now) }
{
    match skip_blanks(bytes) {
        [byte, rest @ ..] if *byte == mark => Some(rest),
        _ => None,
    }
}

fn is_letter(byte: u8) -> bool
    ensures { result ≡ letter byte }
{
    byte.is_ascii_lowercase() || byte.is_ascii_uppercase() || byte == b'_'
}

fn begins_name(word: &[u8]) -> bool
    ensures { result ≡ begins word.now }
{
    match word {
        [first, ..] => is_letter(*first),
        [] => false,
    }
}

fn has_name_bytes(word: &[u8]) -> bool
    ensures { result ≡ list_all (λ b. letter b || digit b) word.now }
{
    word.iter()
        .all(|byte| is_letter(*byte) || byte.is_ascii_digit())
}

/// Whether a word is a name: a letter or an underscore, then these and digits, at most 64.
#[tactic(auto, unfolding(crate::specs::Reading::is_name))]
pub(crate) fn is_name(word: &[u8]) -> bool
    ensures { result ≡ named word.now }
{
    begins_name(word) && has_name_bytes(word) && word.len() <= 64
}

#[tactic(auto, unfolding(crate::specs::Reading::register_at))]
pub(crate) fn register_in(bytes: &[u8]) -> Option<(u8, &[u8])>
    ensures value { Gives (λ x. (x.0, x.1.now)) result (register_at bytes.now) }
    ensures below { IfSome result (λ x. x.0 < 32) }
{
    let (word, rest) = word(bytes)?;
    Some((register(word)?, rest))
}

/// A number from `low` to `high`.
#[tactic(auto, unfolding(crate::specs::Reading::number_at))]
pub(crate) fn number_in(bytes: &[u8], low: i64, high: i64) -> Option<(i64, &[u8])>
    ensures value { Gives (λ x. (x.0, x.1.now)) result (number_at low high bytes.now) }
    ensures low { IfSome result (λ x. low ≤ℤ x.0) }
    ensures high { IfSome result (λ x. x.0 ≤ℤ high) }
{
    let (word, rest) = word(bytes)?;
    let number = number(word)?;
    if low <= number && number <= high {
        Some((number, rest))
    } else {
        None
    }
}

#[tactic(auto, unfolding(crate::specs::Reading::name_at))]
pub(crate) fn name_in(bytes: &[u8]) -> Option<(&[u8], &[u8])>
    ensures { Gives (λ x. (x.0.now, x.1.now)) result (name_at bytes.now) }
{
    let (word, rest) = word(bytes)?;
    if is_name(word) {
        Some((word, rest))
    } else {
        None
    }
}
