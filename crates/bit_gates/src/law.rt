//! Laws of gates, each as the contract of a function that does nothing.
ghost use Rattle.bit_gates.specs.Laws.{JoinedIsRooted, ChosenIsRooted};

/// The output of a gate of two rooted inputs is rooted.
pub fn joined_is_rooted()
    ensures { JoinedIsRooted }
{}

/// The output of a choice between rooted inputs, by a rooted condition, is rooted.
pub fn chosen_is_rooted()
    ensures { ChosenIsRooted }
{}
