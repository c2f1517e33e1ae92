ghost use Rattle.trace_path.specs.Traced.{OneWalk};

/// A log has one walk in an image.
pub fn one_walk()
    ensures { OneWalk }
{}
