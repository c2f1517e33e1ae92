ghost use Rattle.std.specs.Prelude.{◌≡◌, ℕ, ◌<◌, ◌≤◌, IfSome, IfNone, decimal, slice_index};

use std::str;

/// The number that a text says: decimal, without sign or leading zero, and at most `most`.
pub fn number_of(text: &[u8], most: u64) -> Option<u64>
    ensures said { IfSome result (λ n. (n ≤ most) × (text.now ≡ decimal n)) }
    ensures none { IfNone result ((n : ℕ) → n ≤ most → text.now ≡ decimal n → ⊥) }
{
    let Some(&first) = text.first() else {
        return None;
    };
    if first > b'0' {
        parsed(text, most)
    } else if first == b'0' && text.len() == 1 {
        Some(0)
    } else {
        None
    }
}

/// The same of a text that begins with a byte above `0`, so with neither sign nor zero.
fn parsed(text: &[u8], most: u64) -> Option<u64>
    requires { 48 < slice_index text.now 0 }
    ensures said { IfSome result (λ n. (n ≤ most) × (text.now ≡ decimal n)) }
    ensures none { IfNone result ((n : ℕ) → n ≤ most → text.now ≡ decimal n → ⊥) }
{
    let Ok(digits) = str::from_utf8(text) else {
        return None;
    };
    let Ok(number) = digits.parse::<u64>() else {
        return None;
    };
    if number <= most { Some(number) } else { None }
}
