ghost use Rattle.std.specs.Prelude.{◌≡◌, ◌≤◌, ◌^◌, true, IfSome, MatchOption, option_map};
ghost use Rattle.std.specs.Char.{is_ascii_digit};
ghost use Rattle.std.specs.List.{list_all};
ghost use Rattle.std.specs.Str.Parse.{digits_value};
ghost use Rattle.odr_words.specs.Numbers.{is_decimal, number_in, number_or};

fn are_digits(text: &[u8]) -> bool
    ensures { result ≡ list_all is_ascii_digit text.now }
{
    text.iter().all(|byte| byte.is_ascii_digit())
}

/// Whether a text is a decimal number without sign or leading zero.
fn is_decimal(text: &str) -> bool
    ensures { result ≡ is_decimal text.now }
{
    match text.as_bytes() {
        [] => false,
        [first, rest @ ..] => are_digits(text.as_bytes()) && (*first != b'0' || rest.is_empty()),
    }
}

/// The number that a decimal text writes, if it fits.
fn value_of(text: &str) -> Option<u64>
    requires { is_decimal text.now ≡ true }
    ensures { MatchOption result (2 ^ 64 ≤ digits_value 10 text.now) (λ number. number ≡ digits_value 10 text.now) }
{
    text.parse::<u64>().ok()
}

/// The decimal number that a text is, if it lies between the limits.
pub fn number_in(text: &str, low: u64, high: u64) -> Option<u64>
    ensures value { result ≡ number_in low high text.now }
    ensures within { IfSome result (λ number. number ≤ high) }
{
    if !is_decimal(text) {
        return None;
    }
    match value_of(text) {
        Some(number) if low <= number && number <= high => Some(number),
        _ => None,
    }
}

/// The number of an option between the limits, or its default where the option was not given.
pub fn number_or(default: u64, low: u64, high: u64, text: Option<&str>) -> Option<u64>
    requires { default ≤ high }
    ensures value { result ≡ number_or default low high (option_map (λ t. t.now) text.entry) }
    ensures within { IfSome result (λ number. number ≤ high) }
{
    match text {
        None => Some(default),
        Some(text) => number_in(text, low, high),
    }
}
