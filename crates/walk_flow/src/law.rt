ghost use Rattle.walk_flow.specs.Depends.{FlowLaw, PlaceFlowLaw};

/// The registers and addresses of a step depend on what is read at the steps that flow into it, and what the step does
/// on what it reads itself too.
pub fn steps_depend_on_flow()
    ensures { FlowLaw }
{}

/// The same of each place of a walk, also of the place of the fault in which its log ends.
pub fn places_depend_on_flow()
    ensures { PlaceFlowLaw }
{}
