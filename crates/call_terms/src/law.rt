//! What a record tells of the step that made the call. The function does nothing; its contract is the law.
ghost use Rattle.call_terms.specs.Law.{RecordsTell};

/// A call that is answered as it is recorded has this record exactly where its registers ask for it, and its buffer has the
/// rights and bytes that the record tells.
pub fn records_tell()
    ensures { RecordsTell }
{}
