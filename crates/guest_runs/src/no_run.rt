//! Why a guest has no run.

use odr_list::memory::Memory;
use std::alloc::{AllocError, AllocFailed};

/// What a guest lacks.
#[derive(Clone, Copy, Debug, PartialEq, Eq)]
pub enum NoRun {
    Memory,
    /// Its file is no program.
    File,
    /// Its bytes are no log.
    Log,
    /// Its log has no walk in the program.
    Walk,
    /// Its schedule has another log.
    Schedule,
    /// What is to be changed isn't there.
    Place,
}

impl From<AllocError> for NoRun {
    fn from(_error: AllocError) -> NoRun {
        NoRun::Memory
    }
}

impl From<Memory> for NoRun {
    fn from(_error: Memory) -> NoRun {
        NoRun::Memory
    }
}

impl<T: Drop> From<AllocFailed<T>> for NoRun {
    fn from(_error: AllocFailed<T>) -> NoRun {
        NoRun::Memory
    }
}
