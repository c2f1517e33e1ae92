ghost use Rattle.fixed_reads.specs.Law.{InitialBytes, WrittenBytes};

/// A byte that is read from the same write in every run, or from none, has the value of that write's byte, or the initial one, exactly
/// where the access sees it so.
pub fn fixed_bytes_have_one_source()
    ensures initial { InitialBytes }
    ensures written { WrittenBytes }
{}
