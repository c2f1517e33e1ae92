//! Laws of the memory after a list of writes, each as the contract of a function that does nothing.
ghost use Rattle.guest_mem.specs.Laws.{WritesChain, RightsStay};

/// Where a memory is what some writes left, and another is what further writes left of it, the other is
/// what all of them left.
pub fn writes_chain()
    ensures { WritesChain }
{}

/// No write changes what may be read or written.
pub fn rights_stay()
    ensures { RightsStay }
{}
