ghost use Rattle.std.specs.Prelude.{◌≡◌, ◌⊎◌, IfOk, IfErr};
ghost use Rattle.cert_text.specs.FirstBad.{IsCertText, IsCause};
ghost use Rattle.cert_text.specs.Grammar.{IsTextOf};
ghost use Rattle.cert_text.specs.Reading.{begins_full};

use crate::cert::Cert;
use crate::fault::CertFault;
use crate::line::{next_line, read_mark};
use odr_list::list::List;
use std::alloc::Global;

/// Whether a line begins here that isn't empty.
fn begins_full_line(rest: &[u8]) -> bool
    ensures { result ≡ begins_full rest.now }
{
    match rest.first() {
        Some(byte) => *byte != b'\n',
        None => false,
    }
}

/// The certificate of which the bytes are the text.
///
/// The first line is `whole` or `part`. Each further line has literals with one space between them: `t.i<u.j`
/// where step i of thread t stands before step j of thread u, or `xN` or `-xN` for variable N and its opposite.
/// Threads go from 0 to 255 and differ, steps are below 2^32, N goes from 1 to 2^63; all are decimal, without
/// sign or leading zero. In a line the literals rise: those of steps first, by t, i, u and j, then the others by
/// N, `xN` before `-xN`. A whole text ends with an empty line, and no other line is empty. A line feed ends
/// each line. `Bad` comes where some line breaks this, with the first such line, or the one after the last where
/// one is missing; lines count from 1.
pub fn read_cert(alloc: Global, bytes: &[u8]) -> Result<Cert, CertFault>
    ensures cert { IfOk result (λ cert. IsTextOf cert bytes.now) }
    ensures first_bad { IfErr result (IsCause bytes.now) }
    ensures no_cert { IfErr result (λ fault. (fault ≡ CertFault.Memory) ⊎ (¬ IsCertText bytes.now)) }
{
    let Some((whole, mut rest)) = read_mark(bytes) else {
        return Err(CertFault::Bad { line: 1 });
    };
    let mut lines = List::new(alloc);
    let mut line = 2;
    while begins_full_line(rest) {
        let Some((literals, after)) = next_line(alloc, rest)? else {
            return Err(CertFault::Bad { line });
        };
        lines.push(literals)?;
        line += 1;
        rest = after;
    }
    if !whole && rest.is_empty() {
        return Ok(Cert { whole, lines });
    }
    if !whole || rest.is_empty() {
        return Err(CertFault::Bad { line });
    }
    if rest.len() > 1 {
        return Err(CertFault::Bad { line: line + 1 });
    }
    lines.push(List::new(alloc))?;
    Ok(Cert { whole, lines })
}
