ghost use Rattle.logged_walks.specs.Law.{LoggedCallsFit, LoggedPathsFit};

/// The calls of a log that a schedule has could be made in the order of their records.
pub fn logged_calls_fit()
    ensures { LoggedCallsFit }
{}

/// The paths of a log that a schedule has fit the image: the log has a walk.
pub fn logged_paths_fit()
    ensures { LoggedPathsFit }
{}
