ghost use Rattle.std.specs.Prelude.{◌≡◌, ◌==◌, ◌<◌, ◌∷◌, ◌++◌, IfSome, IfNone, length, slice_index};
ghost use Rattle.std.specs.List.{position_from};
ghost use Rattle.sched_text.specs.LineLaws.{IsFreeOf};

/// The place of the first such byte.
fn place_of(bytes: &[u8], byte: u8) -> Option<usize>
    ensures first { result ≡ position_from (λ b. b == byte) 0 bytes.now }
    ensures within { IfSome result (λ at. at < length bytes.now) }
    ensures byte { IfSome result (λ at. slice_index bytes.now at ≡ byte) }
{
    bytes.iter().position(|b| *b == byte)
}

/// What stands before the first such byte, and what stands after it.
pub fn split_once(bytes: &[u8], byte: u8) -> Option<(&[u8], &[u8])>
    ensures parts { IfSome result (λ parts. bytes.now ≡ parts.0.now ++ byte ∷ parts.1.now) }
    ensures first { IfSome result (λ parts. IsFreeOf byte parts.0.now) }
    ensures none { IfNone result (IsFreeOf byte bytes.now) }
{
    let at = place_of(bytes, byte)?;
    Some((&bytes[..at], &bytes[at + 1..]))
}
