use odr_list::memory::Memory;

/// Why a text gives no schedule.
#[derive(Clone, Copy, Debug, PartialEq, Eq)]
pub enum SchedFault {
    /// The first line outside the grammar, counted from 1.
    Bad { line: u64 },
    /// Want of memory.
    Memory,
}

impl From<Memory> for SchedFault {
    ghost use Rattle.std.specs.Prelude.{◌≡◌};
    ghost use Rattle.sched_text.specs.declared.fault.SchedFault.TheVariants as fault;

    ghost from_gives = { λ _ e. e ≡ fault.Memory };

    fn from(_error: Memory) -> SchedFault {
        SchedFault::Memory
    }
}
