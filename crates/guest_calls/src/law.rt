//! A law of calls, as the contract of a function that does nothing.
ghost use Rattle.guest_calls.specs.Laws.{CallsOfRegisters};

/// The call by the arguments that stand in a thread's registers is the call that the model has there.
pub fn calls_of_registers()
    ensures { CallsOfRegisters }
{}
