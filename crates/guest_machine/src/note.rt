use guest_calls::note::CallNote;
use odr_log::log::Cause;

/// What a step shows of itself. `note_of` is the model's note.
#[derive(Debug, Drop)]
pub enum Note {
    Nothing,
    /// The outcome of a branch.
    Branch(bool),
    /// The target of a JALR.
    Jump(u32),
    /// A guest call.
    Call(CallNote),
    /// A fault, which halts the machine.
    Fault(Cause),
}
