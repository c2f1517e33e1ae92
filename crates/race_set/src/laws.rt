//! Laws of orders of accesses, each as the contract of a function that does nothing.
ghost use Rattle.race_set.specs.Laws.{OrdersMerge};

/// The recorded order and an order of chosen accesses that agrees with it lie in one strict order, which adds nothing
/// among the chosen and extends to total orders.
pub fn orders_merge()
    ensures { OrdersMerge }
{}
