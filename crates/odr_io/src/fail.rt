use crate::Memory;
use std::alloc::AllocError;

/// A fault of a source.
#[derive(Clone, Copy, Debug, PartialEq, Eq)]
pub struct Failed;

/// Why a load handed out no file.
#[derive(Clone, Copy, Debug, PartialEq, Eq)]
pub enum LoadFail {
    /// Nothing is held under the name.
    Absent,
    /// More bytes are held than the limit.
    TooLong,
    /// A fault of the store, which it counted.
    Failed,
    /// Want of memory.
    Memory,
}

/// Why a save or a write failed.
#[derive(Clone, Copy, Debug, PartialEq, Eq)]
pub enum SaveFail {
    /// A fault of the store or the sink, which it counted.
    Failed,
    /// Want of memory.
    Memory,
}

impl From<Failed> for LoadFail {
    ghost use Rattle.std.specs.Prelude.{◌≡◌};
    ghost use Rattle.odr_io.specs.declared.fail.LoadFail.TheVariants as load;

    ghost from_gives = { λ _ fail. fail ≡ load.Failed };

    fn from(_failed: Failed) -> LoadFail {
        LoadFail::Failed
    }
}

impl From<AllocError> for LoadFail {
    ghost use Rattle.std.specs.Prelude.{◌≡◌};
    ghost use Rattle.odr_io.specs.declared.fail.LoadFail.TheVariants as load;

    ghost from_gives = { λ _ fail. fail ≡ load.Memory };

    fn from(_error: AllocError) -> LoadFail {
        LoadFail::Memory
    }
}

impl From<Failed> for SaveFail {
    ghost use Rattle.std.specs.Prelude.{◌≡◌};
    ghost use Rattle.odr_io.specs.declared.fail.SaveFail.TheVariants as save;

    ghost from_gives = { λ _ fail. fail ≡ save.Failed };

    fn from(_failed: Failed) -> SaveFail {
        SaveFail::Failed
    }
}

impl From<Memory> for SaveFail {
    ghost use Rattle.std.specs.Prelude.{◌≡◌};
    ghost use Rattle.odr_io.specs.declared.fail.SaveFail.TheVariants as save;

    ghost from_gives = { λ _ fail. fail ≡ save.Memory };

    fn from(_memory: Memory) -> SaveFail {
        SaveFail::Memory
    }
}

impl From<AllocError> for SaveFail {
    ghost use Rattle.std.specs.Prelude.{◌≡◌};
    ghost use Rattle.odr_io.specs.declared.fail.SaveFail.TheVariants as save;

    ghost from_gives = { λ _ fail. fail ≡ save.Memory };

    fn from(_error: AllocError) -> SaveFail {
        SaveFail::Memory
    }
}
