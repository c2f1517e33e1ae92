ghost use Rattle.access_fits.specs.Law.{DecidedFits, FitsByOrder, WovenFits};

/// What is given fits the steps of a list exactly where it fits the order of the accesses among them.
pub fn fits_by_order()
    ensures { FitsByOrder }
{}

/// What is given fits a woven schedule exactly where it fits the order in which the schedule has the accesses of the walk.
pub fn woven_schedules_fit_by_order()
    ensures { WovenFits }
{}

/// What is given fits a woven schedule exactly where it fits an order that the schedule decides for the accesses of the walk.
pub fn schedules_fit_by_decided_order()
    ensures { DecidedFits }
{}
