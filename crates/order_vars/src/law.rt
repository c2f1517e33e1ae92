//! Laws of the literals of chosen steps, each as the contract of a function that does nothing.
ghost use Rattle.order_vars.specs.Laws.{AssignmentsAreOrders, OrdersAreAssignments, RestIsAnOrder, OpenPairsGoBothWays};

/// Each assignment that satisfies the clauses spells a total order that agrees with the recorded order.
pub fn assignments_are_orders()
    ensures { AssignmentsAreOrders }
{}

/// Each total order that agrees is spelled by an assignment, whatever the older variables are.
pub fn orders_are_assignments()
    ensures { OrdersAreAssignments }
{}

/// Where the unit rule has nothing to do, some total order that agrees has all literals that are true.
pub fn rest_is_an_order()
    ensures { RestIsAnOrder }
{}

/// A variable that is open there goes both ways.
pub fn open_pairs_go_both_ways()
    ensures { OpenPairsGoBothWays }
{}
