ghost use Rattle.schedule_extract.specs.Law.{TotalOrdersAreWoven, WovenCanBeWoven, WovenKeepsOrder};

/// The pairs of a total order of accesses that agrees with the recorded order can be woven.
pub fn total_orders_can_be_woven()
    ensures { TotalOrdersAreWoven }
{}

/// A schedule that is woven for the pairs of a total order of accesses, but those that are recorded, decides that order.
pub fn woven_schedules_keep_the_order()
    ensures { WovenKeepsOrder }
{}

/// Where some schedule is woven for pairs, they can be woven: `extract` asks for no more than there has to be.
pub fn woven_pairs_can_be_woven()
    ensures { WovenCanBeWoven }
{}
