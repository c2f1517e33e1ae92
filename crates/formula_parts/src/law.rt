ghost use Rattle.formula_parts.specs.Laws.{NoPart, PartsCompose, RequiredTermsAreParts, StandsOnLater};

/// Where nothing is added, nothing is said.
pub fn no_part()
    ensures { NoPart }
{}

/// One part after another says what both say.
pub fn parts_compose()
    ensures { PartsCompose }
{}

/// A term that is required to be 1 is a part that says so.
pub fn required_terms_are_parts()
    ensures { RequiredTermsAreParts }
{}

/// After a part the terms of accesses and the variables of their order are still there.
pub fn stands_on_later()
    ensures { StandsOnLater }
{}
