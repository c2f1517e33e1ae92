ghost use Rattle.same_parts.specs.Same.{InitialBytesAreSources, SameBytesAreParts, WritesAreSources};

/// Clauses that make the bits of a byte those of its one source are a part, which says that it is what the access sees.
pub fn same_bytes_are_parts()
    ensures { SameBytesAreParts }
{}

/// A byte that comes from one write in every run has that write's byte as its source.
pub fn writes_are_sources()
    ensures { WritesAreSources }
{}

/// A byte that no run writes before it is read has the initial byte as its source.
pub fn initial_bytes_are_sources()
    ensures { InitialBytesAreSources }
{}
