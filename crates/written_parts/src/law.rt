ghost use Rattle.written_parts.specs.Written.{WrittenBytesAreParts};

/// Literals of all bytes that accesses may write are a part that says nothing.
pub fn written_bytes_are_parts()
    ensures { WrittenBytesAreParts }
{}
