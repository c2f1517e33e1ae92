ghost use Rattle.std.specs.Prelude.{◌≡◌};
ghost use Rattle.odr_log.specs.declared.stop.Stop.TheVariants as stop;

use odr_list::memory::Memory;
use std::alloc::AllocError;

/// Why reading stopped.
#[derive(Clone, Copy, Debug, PartialEq, Eq)]
pub(crate) enum Stop {
    /// Memory ran out.
    Memory,
    /// No log has this byte here, or the bytes end too early. So many bytes were left, this byte among them.
    Bad { left: usize },
}

impl From<AllocError> for Stop {
    ghost from_gives = { λ _ e. e ≡ stop.Memory };

    fn from(_error: AllocError) -> Stop {
        Stop::Memory
    }
}

impl From<Memory> for Stop {
    ghost from_gives = { λ _ e. e ≡ stop.Memory };

    fn from(_error: Memory) -> Stop {
        Stop::Memory
    }
}
