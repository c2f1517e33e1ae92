//! Laws of assignments and of the unit rule, each as the contract of a function that does nothing.
ghost use Rattle.clause_store.specs.Laws.{FollowsIsBySteps, RestIsBySteps, FollowsIsTrue, DerivedIsTrue, MoreClausesKeep, OppositesFollow, SatisfiedAlike, ExtensionsCompose, GrowthComposes, OlderSatisfied, OlderAtRest};
ghost use Rattle.clause_store.specs.Rooted.{RootsAreRooted, RootedStays};

/// A line follows exactly where, with its literals false, the rule makes a clause false step by step.
pub fn follows_is_by_steps()
    ensures { FollowsIsBySteps }
{}

/// What holds wherever the rule has nothing left to do is what its steps give.
pub fn rest_is_by_steps()
    ensures { RestIsBySteps }
{}

/// A line that follows is true in every assignment that satisfies the clauses.
pub fn follows_is_true()
    ensures { FollowsIsTrue }
{}

/// Derived lines are true in every assignment that satisfies the clauses.
pub fn derived_is_true()
    ensures { DerivedIsTrue }
{}

/// More clauses keep what follows, whatever the order of clauses and literals.
pub fn more_clauses_keep()
    ensures { MoreClausesKeep }
{}

/// A line with a literal and its opposite follows from any clauses.
pub fn opposites_follow()
    ensures { OppositesFollow }
{}

/// Assignments that agree on the variables of clauses satisfy them alike.
pub fn satisfied_alike()
    ensures { SatisfiedAlike }
{}

/// An extension of an extension is one.
pub fn extensions_compose()
    ensures { ExtensionsCompose }
{}

/// What grew and grew again has grown.
pub fn growth_composes()
    ensures { GrowthComposes }
{}

/// Where all clauses are true, the older ones are.
pub fn older_satisfied()
    ensures { OlderSatisfied }
{}

/// Where all clauses are at rest, the older ones are.
pub fn older_at_rest()
    ensures { OlderAtRest }
{}

/// A literal of a root is rooted.
pub fn roots_are_rooted()
    ensures { RootsAreRooted }
{}

/// Clauses that are added later keep a literal rooted.
pub fn rooted_stays()
    ensures { RootedStays }
{}
