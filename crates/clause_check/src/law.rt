//! Laws of verdicts, each as the contract of a function that does nothing.
ghost use Rattle.clause_check.specs.Verdicts.{OneVerdict, RefutedCantBeSatisfied};

/// Clauses and lines have one verdict.
pub fn one_verdict()
    ensures { OneVerdict }
{}

/// No assignment satisfies clauses that are refuted.
pub fn refuted_cant_be_satisfied()
    ensures { RefutedCantBeSatisfied }
{}
