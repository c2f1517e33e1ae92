//! Laws of readers, each as the contract of a function that does nothing.
ghost use Rattle.source_clauses.specs.Among.{CandidatesAreEnough};
ghost use Rattle.source_clauses.specs.Laws.{NoReader, ReadersCompose};

/// No reader adds no clause.
pub fn no_reader()
    ensures { NoReader }
{}

/// The clauses of one reader after those of some others are those of all of them.
pub fn readers_compose()
    ensures { ReadersCompose }
{}

/// The newest among the candidates of a reader is the newest among all writes.
pub fn candidates_are_enough()
    ensures { CandidatesAreEnough }
{}
