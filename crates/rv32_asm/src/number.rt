ghost use Rattle.std.specs.Prelude.{◌≡◌, ◌≤◌};
ghost use Rattle.std.specs.Char.{digit_value};
ghost use Rattle.rv32_asm.specs.Numbers.{magnitude_of, number_of};

/// The value of a digit in any radix up to 36, or 36.
fn digit(byte: u8) -> u8
    ensures { result ≡ digit_value byte }
{
    match byte {
        b'0'..=b'9' => byte - b'0',
        b'A'..=b'Z' => byte - b'A' + 10,
        b'a'..=b'z' => byte - b'a' + 10,
        _ => 36,
    }
}

/// The number that one digit or more write, up to 2^32 - 1.
fn magnitude(radix: u8, digits: &[u8]) -> Option<u32>
    requires { radix ≤ 16 }
    ensures { result ≡ magnitude_of radix digits.now }
{
    if digits.is_empty() {
        return None;
    }
    let mut value = 0u32;
    for byte in digits {
        let digit = digit(*byte);
        if digit >= radix {
            return None;
        }
        let more = u64::from(value) * u64::from(radix) + u64::from(digit);
        if more >= 1 << 32 {
            return None;
        }
        value = more as u32;
    }
    Some(value)
}

/// The number that a word is. No number reaches 2^32 or -2^32.
#[tactic(auto, unfolding(crate::specs::Numbers::number_of))]
pub(crate) fn number(word: &[u8]) -> Option<i64>
    ensures { result ≡ number_of word.now }
{
    if let Some(digits) = word.strip_prefix(b"0x") {
        return Some(i64::from(magnitude(16, digits)?));
    }
    if let Some(digits) = word.strip_prefix(b"-") {
        return Some(-i64::from(magnitude(10, digits)?));
    }
    Some(i64::from(magnitude(10, word)?))
}
