//! Laws of lines, each as the contract of a function that does nothing.
ghost use Rattle.sat_core.specs.Lines.{KeysDiffer};

/// A line with a literal that can stay open has not all the literals of a clause.
pub fn keys_differ()
    ensures { KeysDiffer }
{}
