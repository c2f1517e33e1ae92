ghost use Rattle.read_parts.specs.Reads.{ReadersAreParts};

/// The clauses of a reader that was built are a part, which says that each of its bytes is what the access sees there.
pub fn readers_are_parts()
    ensures { ReadersAreParts }
{}
