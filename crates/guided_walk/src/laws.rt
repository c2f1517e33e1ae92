ghost use Rattle.guided_walk.specs.Law.{OrderLaw, TableLaw, OrderedLaw, ScheduleLaw};

/// Along two lists of all places that keep an order, the guided walk holds along both or neither, with the same visits.
pub fn order_does_not_matter()
    ensures { OrderLaw }
{}

/// Along a list of all places that keeps an order, the walk holds exactly where the guided walk does, and finds its visits.
pub fn walks_along_lists()
    ensures { TableLaw }
{}

/// A woven schedule has a log of version 1 exactly where a guided walk with some given bytes and outcomes fits it, for
/// a log whose walk is defined and whose calls fit.
pub fn schedules_are_explained()
    ensures { ScheduleLaw }
{}

/// Along two lists of all counted steps that keep an ordered relation, with the fault behind them, the guided walk holds
/// along both or neither, with the same visits.
pub fn ordered_lists_agree()
    ensures { OrderedLaw }
{}
