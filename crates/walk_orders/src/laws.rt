ghost use Rattle.walk_orders.specs.Law.{ListsAgree, RecordedIsOrdered, RecordedTest, TestIsOrdered, WeavingLaw, AccessesGoOn, WovenDecides, LoggedIsWoven};

/// Along two lists of all counted steps that keep an ordered relation and have an exit last, the guided walk holds along both
/// or neither, with the same visits.
pub fn lists_with_exits_last_agree()
    ensures { ListsAgree }
{}

/// The recorded order of a log is ordered, where the log's walk is defined and its calls fit.
pub fn recorded_order_is_ordered()
    ensures { RecordedIsOrdered }
{}

/// The recorded order of a log is a test that only looks at the log's calls and counts of steps.
pub fn recorded_order_is_tested()
    ensures test { RecordedTest }
    ensures ordered { TestIsOrdered }
{}

/// Every total order of chosen counted steps without an exit that agrees with the recorded order comes from one list of
/// all counted steps.
pub fn total_orders_are_woven()
    ensures { WeavingLaw }
{}

/// An access is a counted step and no exit.
pub fn accesses_go_on()
    ensures { AccessesGoOn }
{}

/// What a woven schedule decides of counted steps is a total order that agrees with the recorded order.
pub fn woven_schedules_decide()
    ensures { WovenDecides }
{}

/// A schedule that has the log is woven for each list of pairs of counted steps that it decides so.
pub fn logged_schedules_are_woven()
    ensures { LoggedIsWoven }
{}
