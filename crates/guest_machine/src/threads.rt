ghost use Rattle.std.specs.Prelude.{◌≡◌, ◌≤◌, ◌<◌, [], ◌∷◌, ◌++◌, length, map, slice_set, slice_index_or, IfOk};
ghost use Rattle.rv_model.specs.Thread.{no_thread};
ghost use Rattle.guest_machine.specs.Spans.{touches_span, losing_by};

use crate::span;
use odr_list::memory::Memory;
use rv_model::hearing::Access;
use rv_model::state::Thread;
use std::alloc::Global;
use std::marker::Model;

/// The most threads that are made.
pub const MOST: usize = 8;

/// The threads that were made; eight at most, kept in place.
#[derive(Drop)]
pub struct Threads {
    threads: Vec<Thread>,
}

impl Model for Threads {
    ghost use Rattle.std.specs.Prelude.{List, ◌≤◌, length, vec_capacity};
    ghost use Rattle.rv_model.specs.declared.state.Thread.{Thread};

    ghost Value = { List Thread };

    ghost view = { λ threads. threads.threads.items };

    ghost invariant = { λ threads. (length threads.threads.items ≤ 8) × (8 ≤ vec_capacity threads.threads) };
}

impl Threads {
    /// One thread, with room for the others, so that no later call takes memory.
    pub fn of_first(alloc: Global, first: Thread) -> Result<Threads, Memory>
        ensures { IfOk result (λ threads. threads ≡ first ∷ []) }
    {
        let mut threads = Vec::with_capacity(alloc, MOST)?;
        threads.push_reserved(first);
        Ok(Threads { threads })
    }

    /// The number of threads.
    pub fn len(&self) -> usize
        ensures value { result ≡ length self.now }
        ensures few { result ≤ 8 }
    {
        self.threads.len()
    }

    pub fn get(&self, tid: u8) -> &Thread
        requires { tid < length self.now }
        ensures { result.now ≡ slice_index_or self.now tid no_thread }
    {
        &self.threads[tid as usize]
    }

    pub fn set(&mut self, tid: u8, thread: Thread)
        requires { tid < length self.old }
        ensures { self.new ≡ slice_set self.old tid thread }
    {
        self.threads[tid as usize] = thread;
    }

    /// One more thread is made.
    pub fn push(&mut self, thread: Thread)
        requires { length self.old < 8 }
        ensures { self.new ≡ self.old ++ thread ∷ [] }
    {
        self.threads.push_reserved(thread);
    }

    /// Ends the reservations of words that the span touches.
    pub fn end_reservations(&mut self, span: Access)
        ensures { self.new ≡ map (losing_by (touches_span span)) self.old }
    {
        span::end_reservations(self.threads.as_mut_slice(), span);
    }
}
