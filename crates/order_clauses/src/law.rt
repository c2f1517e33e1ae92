//! Laws of order clauses, each as the contract of a function that does nothing.
ghost use Rattle.order_clauses.specs.Laws.{EachOrderExtends, TablesAreOrders, OpenGoesBothWays};

/// A strict order extends to a total one, with a pair that it leaves open put either way.
pub fn each_order_extends()
    ensures { EachOrderExtends }
{}

/// The assignments of order clauses are the total orders that keep the recorded pairs.
pub fn tables_are_orders()
    ensures { TablesAreOrders }
{}

/// A variable that is open at rest goes both ways.
pub fn open_goes_both_ways()
    ensures { OpenGoesBothWays }
{}
