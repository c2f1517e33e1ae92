ghost use Rattle.outcome_parts.specs.Outcomes.{OutcomesAreParts};

/// The clauses of a store-conditional that was built are a part, which says that it writes exactly where it succeeds.
pub fn outcomes_are_parts()
    ensures { OutcomesAreParts }
{}
