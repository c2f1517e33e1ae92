ghost use Rattle.walk_facts.specs.Bytes.{AddressLaw, WritesLaw};
ghost use Rattle.walk_facts.specs.Givens.{BytesLaw, GivenLaw};
ghost use Rattle.walk_facts.specs.Law.{AccessesLaw, FaultLaw, InstructionLaw, LinkLaw, PlacesLaw, QuietLaw, ReservedLaw, RightsLaw};
ghost use Rattle.walk_facts.specs.Links.{LooksBackLaw};
ghost use Rattle.walk_facts.specs.Runs.{EndLaw, RunLaw};

/// The instruction at a step of a guided walk is the one that the log's walk has there, and so it is at the fault.
pub fn steps_stand_where_walked()
    ensures counted { InstructionLaw }
    ensures fault { FaultLaw }
{}

/// The bytes of an access are in a row, modulo 2^32, at an address of its own each; and what is written from an address
/// on is each byte at its address.
pub fn bytes_stand_in_a_row()
    ensures addresses { AddressLaw }
    ensures writes { WritesLaw }
{}

/// Each byte that a step of a guided walk reads may be read, and each that it writes may be written.
pub fn accesses_have_rights()
    ensures { RightsLaw }
{}

/// A step of a guided walk is an access, or it reads and writes nothing and is no store-conditional, and whatever is given
/// fits it; so it is with the fault too.
pub fn other_steps_are_quiet()
    ensures { QuietLaw }
{}

/// The link of a step of a guided walk is the address of the load-reserved to which it looks back: the last one of its thread
/// before it with no store-conditional between. A thread has that address reserved until another thread writes to the word.
pub fn links_look_back()
    ensures back { LooksBackLaw }
    ensures link { LinkLaw }
    ensures reserved { ReservedLaw }
{}

/// A guided walk, and what it fits, is the same by anything that is given alike at its accesses as far as they ask. Where it
/// fits a schedule each byte that it read is below 2^8, so it may as well be given bytes.
pub fn walks_ask_at_accesses()
    ensures given { GivenLaw }
    ensures bytes { BytesLaw }
{}

/// The accesses of a walk are the counted steps that are accesses, each once and in order; each list of them is as long.
pub fn accesses_are_listed()
    ensures { AccessesLaw }
{}

/// In the run of a woven schedule that a guided walk fits each step is what the walk has there; and the run of a log of
/// version 1 ends with each thread where the walk has it after its counted steps.
pub fn runs_are_walks()
    ensures steps { RunLaw }
    ensures ends { EndLaw }
{}

/// A woven schedule has each place of the walk once, and the steps of a thread in their order.
pub fn schedules_list_places()
    ensures { PlacesLaw }
{}
