ghost use Rattle.std.specs.Prelude.{◌≡◌, ◌<◌, ◌^◌, ◌↔◌, IsTrue};
ghost use Rattle.clause_store.specs.Literals.{opposite};
ghost use Rattle.sat_trail.specs.Packing.{place_of};

use clause_store::lit::Lit;
use std::marker::Model;

/// A literal in four bytes, seen by contracts as the literal: twice its variable's number, and one more where it
/// is positive. So a literal and its opposite stand side by side in every table by literals.
#[derive(Clone, Copy, Debug)]
pub struct Packed {
    code: u32,
}

impl Model for Packed {
    ghost use Rattle.clause_store.specs.declared.lit.Lit.{Lit};
    ghost use Rattle.sat_trail.specs.Packing.{lit_of, place_of};

    ghost Value = { Lit };

    ghost use Rattle.sat_trail.specs.Inverse.{same_inside};

    ghost view = { λ p. lit_of p.code };

    ghost inverse = { λ l. record { code = place_of l } };

    ghost inverse_ok = { λ a h. same_inside a };
}

impl Packed {
    /// The literal of one of the first 2^31 variables.
    pub fn new(lit: Lit) -> Packed
        requires { lit.var < 2 ^ 31 }
        ensures { result ≡ lit }
    {
        Packed {
            code: lit.var as u32 * 2 + lit.positive as u32,
        }
    }

    /// The literal, unpacked.
    pub fn lit(self) -> Lit
        ensures { result ≡ self }
    {
        Lit {
            var: self.code as u64 / 2,
            positive: self.code % 2 == 1,
        }
    }

    /// Its variable's number.
    pub fn var(self) -> usize
        ensures { result ≡ self.var }
    {
        self.code as usize / 2
    }

    /// Whether it is true where the variable is.
    pub fn positive(self) -> bool
        ensures { result ≡ self.positive }
    {
        self.code % 2 == 1
    }

    /// Its place in a table with two entries for each variable.
    pub fn place(self) -> usize
        ensures { result ≡ place_of self }
    {
        self.code as usize
    }

    /// The literal that is true exactly where this one is false.
    pub fn opposite(self) -> Packed
        ensures { result ≡ opposite self }
    {
        if self.code % 2 == 1 {
            Packed {
                code: self.code - 1,
            }
        } else {
            Packed {
                code: self.code + 1,
            }
        }
    }

    /// Whether both are one literal.
    pub fn is(self, other: Packed) -> bool
        ensures { IsTrue result ↔ (self ≡ other) }
    {
        self.code == other.code
    }
}
