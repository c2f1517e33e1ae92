ghost use Rattle.std.specs.Prelude.{◌≡◌};
ghost use Rattle.clause_store.specs.Literals.{opposite};

/// A variable, or its negation.
#[derive(Clone, Copy, Debug, Default, PartialEq, Eq, PartialOrd, Ord)]
pub struct Lit {
    /// The variable's number, from 0.
    pub var: u64,
    /// Whether the literal is true where the variable is.
    pub positive: bool,
}

impl Lit {
    /// The literal that is true exactly where this one is false.
    pub fn opposite(self) -> Lit
        ensures { result ≡ opposite self }
    {
        Lit {
            var: self.var,
            positive: !self.positive,
        }
    }
}
