//! What needs no gate: constants, parts of terms and terms put in front of others.
ghost use Rattle.std.specs.Prelude.{◌≡◌, ◌<◌, ◌≤◌, ◌+◌, ◌-◌, ◌%◌, ◌^◌, ◌++◌, true, All, length, drop, take, replicate, IfOk};
ghost use Rattle.clause_store.specs.Literals.{Assignment, literal_value};
ghost use Rattle.bit_clauses.specs.Spelled.{bit, spelled};

use crate::bit_list::BitList;
use crate::flip::repeated;
use clause_store::lit::Lit;
use odr_list::memory::Memory;
use std::alloc::Global;

// The lowest digit of a number, by a literal that is true.
fn lowest_digit(yes: Lit, number: u64) -> Lit
    ensures same_variable { result.var ≡ yes.var }
    ensures digit { (w : Assignment) → literal_value w yes ≡ true → bit w result ≡ number % 2 }
{
    if number % 2 == 1 { yes } else { yes.opposite() }
}

/// The digits of a number, the lowest first, by a literal that is true.
pub fn constant(alloc: Global, yes: Lit, width: usize, value: u64) -> Result<BitList, Memory>
    requires { value < 2 ^ width }
    ensures width { IfOk result (λ out. length out ≡ width) }
    ensures same_variable { IfOk result (λ out. All (λ l. l.var ≡ yes.var) out) }
    ensures value { IfOk result (λ out. (w : Assignment) → literal_value w yes ≡ true → spelled w out ≡ value) }
{
    let mut bits = BitList::new(alloc);
    let mut rest = value;
    while bits.len() < width {
        let digit = lowest_digit(yes, rest);
        bits.push(digit)?;
        rest /= 2;
    }
    Ok(bits)
}

/// The literals from `low` up to `high`, both included.
pub fn extracted(alloc: Global, lits: &[Lit], high: usize, low: usize) -> Result<BitList, Memory>
    requires ordered { low ≤ high }
    requires within { high < length lits.now }
    ensures { IfOk result (λ out. out ≡ take (high + 1 - low) (drop low lits.now)) }
{
    let upper = &lits[low..];
    BitList::of(alloc, &upper[..high + 1 - low])
}

/// The literals with copies of another in front, up to a width.
pub fn extended(alloc: Global, lits: &[Lit], fill: Lit, width: usize) -> Result<BitList, Memory>
    requires { length lits.now ≤ width }
    ensures { IfOk result (λ out. out ≡ lits.now ++ replicate (width - length lits.now) fill) }
{
    let front = repeated(alloc, fill, width - lits.len())?;
    let mut out = BitList::of(alloc, lits)?;
    out.append(front.as_slice())?;
    Ok(out)
}
