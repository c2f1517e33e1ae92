ghost use Rattle.std.specs.Prelude.{◌≡◌};
ghost use Rattle.cert_text.specs.Order as order;

use crate::cert::CertLit;

/// Whether `a` is below `b`; where they are equal, `later` decides.
fn first_by(a: u64, b: u64, later: bool) -> bool
    ensures { result ≡ order.first_by a b later }
{
    if a == b { later } else { a < b }
}

/// Whether a literal stands before another one in a line.
pub fn stands_before(a: &CertLit, b: &CertLit) -> bool
    ensures { result ≡ order.stands_before a.now b.now }
{
    match (*a, *b) {
        (
            CertLit::Before {
                first_thread,
                first_step,
                second_thread,
                second_step,
            },
            CertLit::Before {
                first_thread: other_first,
                first_step: other_first_step,
                second_thread: other_second,
                second_step: other_second_step,
            },
        ) => {
            let later = first_by(u64::from(second_step), u64::from(other_second_step), false);
            let later = first_by(u64::from(second_thread), u64::from(other_second), later);
            let later = first_by(u64::from(first_step), u64::from(other_first_step), later);
            first_by(u64::from(first_thread), u64::from(other_first), later)
        }
        (CertLit::Before { .. }, CertLit::Var { .. }) => true,
        (CertLit::Var { .. }, CertLit::Before { .. }) => false,
        (
            CertLit::Var { number, positive },
            CertLit::Var {
                number: other_number,
                positive: other_positive,
            },
        ) => first_by(number, other_number, positive && !other_positive),
    }
}
