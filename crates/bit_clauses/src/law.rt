//! Laws of what a Blaster knows, each as the contract of a function that does nothing.
ghost use Rattle.bit_clauses.specs.Laws.{KnownStays, NothingIsKnown, VariablesHaveLiterals};

/// What a Blaster knows stays known while terms and clauses are added.
pub fn known_stays()
    ensures { KnownStays }
{}

/// A Blaster that was just made is one of any pool and any clauses.
pub fn nothing_is_known()
    ensures { NothingIsKnown }
{}

/// Each variable that occurs in a term with literals has literals.
pub fn variables_have_literals()
    ensures { VariablesHaveLiterals }
{}
