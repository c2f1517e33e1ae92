ghost use Rattle.term_sources.specs.Explains.{ExplainedHasLog, LogIsExplained};
ghost use Rattle.term_sources.specs.Law.{TermsFit};

/// What an assignment gives to a guided walk fits an order of its accesses exactly where, by the values of the terms, each read byte is
/// the newest before it there or the initial one, and each store-conditional that looks back has its outcome.
pub fn terms_fit_by_order()
    ensures { TermsFit }
{}

/// A woven schedule has the log where an assignment meets the constraints and each access is what it sees in the schedule's order; and
/// for each schedule that has the log there is such an assignment.
pub fn terms_explain_schedules()
    ensures sound { ExplainedHasLog }
    ensures complete { LogIsExplained }
{}
