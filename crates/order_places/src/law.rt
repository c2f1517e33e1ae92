//! Laws of the places of accesses, each as the contract of a function that does nothing.
ghost use Rattle.order_places.specs.Laws.{AssignmentsSpellOrders, OrdersAreSpelled, PlacesAreOfAccesses, ValuesDecideOrders};

/// Each place of the table is that of one access.
pub fn places_are_of_accesses()
    ensures { PlacesAreOfAccesses }
{}

/// Each assignment that satisfies the clauses spells a total order of all accesses that agrees with the recorded order.
pub fn assignments_spell_orders()
    ensures { AssignmentsSpellOrders }
{}

/// Each total order of all accesses that agrees is spelled by an assignment, whatever the older variables are.
pub fn orders_are_spelled()
    ensures { OrdersAreSpelled }
{}

/// Where the unit rule has nothing to do and the variables of the order have values, they decide such an order.
pub fn values_decide_orders()
    ensures { ValuesDecideOrders }
{}
