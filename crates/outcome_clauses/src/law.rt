//! Laws of outcomes, each as the contract of a function that does nothing.
ghost use Rattle.outcome_clauses.specs.Laws.{NoOutcome, OutcomesCompose, OutcomesFollowReaders};
ghost use Rattle.outcome_clauses.specs.Placed.{PlacesDecide, OrdersPlace};

/// No store-conditional adds no clause.
pub fn no_outcome()
    ensures { NoOutcome }
{}

/// The clauses of one store-conditional after those of some others are those of all of them.
pub fn outcomes_compose()
    ensures { OutcomesCompose }
{}

/// The clauses of store-conditionals after those of readers are those of both.
pub fn outcomes_follow_readers()
    ensures { OutcomesFollowReaders }
{}

/// What a table says of places is the order that an assignment spells.
pub fn places_decide()
    ensures { PlacesDecide }
{}

/// Where an order of the places has values, the unit rule has all that it needs of the writes.
pub fn orders_place()
    ensures { OrdersPlace }
{}
