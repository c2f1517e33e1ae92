ghost use Rattle.walk_lists.specs.Law.{ListLaw};

/// Along a list of all steps in which each stands after what it is made of, the walk holds exactly where the guided walk
/// does, and finds its visits.
pub fn walks_along_whole_lists()
    ensures { ListLaw }
{}
