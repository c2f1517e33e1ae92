//! Laws of the definitions. Each function does nothing; its contract is the law.

ghost use Rattle.rv_model.specs.Law.{NoDifferenceIsLog, FirstDifferenceIsLeast, RecordedLogIsGenuine, StepRetiresAtMostOne, CallsFollowTable, NotesTellCalls, NotesLead, OnlyReadsUseBytes, SpawnsStandFirst};

/// There is no first difference exactly where the schedule has the log.
pub fn no_difference_is_log()
    ensures { NoDifferenceIsLog }
{}

/// The first difference is the least place whose thread is not enabled or whose step is not the log's next, else the
/// schedule's length where the log of its run is another.
pub fn first_difference_is_least()
    ensures { FirstDifferenceIsLeast }
{}

/// The log of a run over any input is also the log of the same schedule over what the log says was read.
pub fn recorded_log_is_genuine()
    ensures { RecordedLogIsGenuine }
{}

/// A step retires at most one instruction.
pub fn step_retires_at_most_one()
    ensures { StepRetiresAtMostOne }
{}

/// A guest call does what its row of the call table says, and waits where the row does.
pub fn calls_follow_table()
    ensures { CallsFollowTable }
{}

/// The note of a step tells what it asked of the state that calls share, and what it was replied.
pub fn notes_tell_calls()
    ensures { NotesTellCalls }
{}

/// A step goes on where its note leads from the instruction at its address, and faults where that fault may be.
pub fn notes_lead()
    ensures { NotesLead }
{}

/// The bytes that an access meets matter to what reads them alone.
pub fn only_reads_use_bytes()
    ensures { OnlyReadsUseBytes }
{}

/// In calls that fit, the spawn that made a thread stands before each call of the thread.
pub fn spawns_stand_first()
    ensures { SpawnsStandFirst }
{}
