ghost use Rattle.std.specs.Prelude.{◌≡◌, ◌≤◌, ◌<◌, [], ◌∷◌, ◌++◌, length, slice_set, slice_index_or, Some, None, is_some};
ghost use Rattle.std.specs.List.{list_all};

use smallvec::SmallVec;
use std::alloc::Global;
use std::marker::Model;

/// The most threads that are made.
pub const MOST: usize = 8;

/// For each thread that was made the value with which it ended; eight at most, kept in place.
#[derive(Drop)]
pub struct EndValues {
    values: SmallVec<Option<u32>, MOST>,
}

impl Model for EndValues {
    ghost use Rattle.std.specs.Prelude.{List, Option, ℕ, ◌≡◌, ◌≤◌, length};

    ghost Value = { List (Option ℕ) };

    ghost view = { λ ended. ended.values.items };

    ghost invariant = { λ ended. (length ended.values.items ≤ 8) × (ended.values.capacity ≡ 8) };
}

impl EndValues {
    /// Thread 0 alone, which has not ended.
    pub fn of_first(alloc: Global) -> EndValues
        ensures { result ≡ None ∷ [] }
    {
        let mut values = SmallVec::new(alloc);
        values.push_reserved(None);
        EndValues { values }
    }

    /// The allocator, which is never asked for memory.
    pub fn alloc(&self) -> Global {
        *self.values.allocator()
    }

    /// The number of threads that were made.
    pub fn len(&self) -> usize
        ensures value { result ≡ length self.now }
        ensures few { result ≤ 8 }
    {
        self.values.len()
    }

    /// The value with which a thread ended.
    pub fn of(&self, thread: u32) -> Option<u32>
        ensures { result ≡ slice_index_or self.now thread None }
    {
        self.values.get(thread as usize).copied().flatten()
    }

    /// Whether every thread has ended.
    pub fn all(&self) -> bool
        ensures { result ≡ list_all is_some self.now }
    {
        self.values.as_slice().iter().all(|value| value.is_some())
    }

    /// A thread ends with this value.
    pub fn set(&mut self, thread: u8, value: u32)
        requires { thread < length self.old }
        ensures { self.new ≡ slice_set self.old thread (Some value) }
    {
        self.values[thread as usize] = Some(value);
    }

    /// One more thread is made.
    pub fn push(&mut self)
        requires { length self.old < 8 }
        ensures { self.new ≡ self.old ++ None ∷ [] }
    {
        self.values.push_reserved(None);
    }
}
