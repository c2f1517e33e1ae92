ghost use Rattle.read_clauses.specs.Conditionals.{ConditionalsSucceedByTerms};
ghost use Rattle.read_clauses.specs.Readers.{ReadersSeeByTerms};
ghost use Rattle.read_clauses.specs.Together.{BytesReadTogether};

/// The literals of a reader of a byte say that it sees the newest of its candidates exactly where the values of the terms say that the
/// access sees the newest of all writes.
pub fn readers_see_by_terms()
    ensures { ReadersSeeByTerms }
{}

/// The literals of a store-conditional say that it has its outcome exactly where the values of the terms say that its guard is 1 exactly
/// where it succeeds.
pub fn conditionals_succeed_by_terms()
    ensures { ConditionalsSucceedByTerms }
{}

/// A reader of some bytes whose candidates hit all of them or none sees the newest exactly where the reader of each byte does.
pub fn bytes_are_read_together()
    ensures { BytesReadTogether }
{}
