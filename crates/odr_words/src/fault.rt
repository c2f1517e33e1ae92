use odr_list::memory::Memory;

/// Why words were not read as a job.
#[derive(Clone, Copy, Debug, PartialEq, Eq)]
pub enum WordsFault {
    /// They are no job.
    Bad,
    /// Memory was wanting.
    Memory,
}

impl From<Memory> for WordsFault {
    ghost use Rattle.std.specs.Prelude.{◌≡◌};
    ghost use Rattle.odr_words.specs.declared.fault.WordsFault.TheVariants as fault;

    ghost from_gives = { λ _ e. e ≡ fault.Memory };

    fn from(_error: Memory) -> WordsFault {
        WordsFault::Memory
    }
}
