ghost use Rattle.std.specs.Prelude.{◌≡◌, ℕ, ◌<◌, ◌≤◌, ◌^◌, IfSome, IfNone, decimal};
ghost use Rattle.cert_text.specs.Text.{place_text, literal_text};
ghost use Rattle.cert_text.specs.Grammar.{IsLit};
ghost use Rattle.cert_text.specs.declared.cert.CertLit.{CertLit};
ghost use Rattle.cert_text.specs.declared.cert.CertLit.TheVariants.{Before};

use crate::cert::CertLit;
use sched_text::number::number_of;
use sched_text::split::split_once;

/// The highest number of a variable.
const MOST_VARIABLES: u64 = 1 << 63;

/// The thread and the step that a text says.
fn read_place(text: &[u8]) -> Option<(u8, u32)>
    ensures within { IfSome result (λ place. (place.0 < 256) × (place.1 < 2 ^ 32)) }
    ensures place { IfSome result (λ place. text.now ≡ place_text place.0 place.1) }
    ensures none { IfNone result ((thread step : ℕ) → thread < 256 → step < 2 ^ 32 →
        text.now ≡ place_text thread step → ⊥) }
{
    let (thread, step) = split_once(text, b'.')?;
    let thread = number_of(thread, 255)?;
    let step = number_of(step, 0xffff_ffff)?;
    Some((thread as u8, step as u32))
}

/// The two places that a word says to follow each other.
fn read_before(word: &[u8]) -> Option<CertLit>
    ensures said { IfSome result (λ literal. IsLit literal × (word.now ≡ literal_text literal)) }
    ensures none { IfNone result ((t i u j : ℕ) → IsLit (Before t i u j) →
        word.now ≡ literal_text (Before t i u j) → ⊥) }
{
    let (first, second) = split_once(word, b'<')?;
    let (first_thread, first_step) = read_place(first)?;
    let (second_thread, second_step) = read_place(second)?;
    if first_thread == second_thread {
        return None;
    }
    Some(CertLit::Before {
        first_thread,
        first_step,
        second_thread,
        second_step,
    })
}

/// The number of a variable that a text says.
fn read_variable(text: &[u8]) -> Option<u64>
    ensures said { IfSome result (λ number. (0 < number) × (number ≤ 2 ^ 63) × (text.now ≡ decimal number)) }
    ensures none { IfNone result ((number : ℕ) → 0 < number → number ≤ 2 ^ 63 → text.now ≡ decimal number → ⊥) }
{
    let number = number_of(text, MOST_VARIABLES)?;
    if number == 0 { None } else { Some(number) }
}

/// The literal that a word says.
pub fn read_literal(word: &[u8]) -> Option<CertLit>
    ensures said { IfSome result (λ literal. IsLit literal × (word.now ≡ literal_text literal)) }
    ensures none { IfNone result ((literal : CertLit) → IsLit literal → word.now ≡ literal_text literal → ⊥) }
{
    if let Some(number) = word.strip_prefix(b"x") {
        let number = read_variable(number)?;
        let positive = true;
        return Some(CertLit::Var { number, positive });
    }
    if let Some(number) = word.strip_prefix(b"-x") {
        let number = read_variable(number)?;
        let positive = false;
        return Some(CertLit::Var { number, positive });
    }
    read_before(word)
}
