//! The walks of all threads.

ghost use Rattle.std.specs.Prelude.{◌≡◌, ◌↔◌, ◌<◌, ◌^◌, ◌+◌, ◌++◌, ◌∷◌, [], ℕ, All, length, IfOk, OnOk, IfSome, IfNone, IsTrue};
ghost use Rattle.trace_path.specs.Followed.{HasWalk, IsGathered};

use crate::thread::{Followed, Stop, walk_thread};
use elf_image::image::Image;
use odr_list::list::List;
use odr_list::memory::Memory;
use odr_log::log::{CallRec, Log};
use rv_model::walk::Place;
use std::alloc::Global;

/// The walks of threads: the places of each, where each stops, and the number of accesses in all.
#[derive(Drop)]
pub struct Gathered {
    pub places: List<List<Place>>,
    pub stops: List<Stop>,
    pub accesses: u64,
}

impl Gathered {
    /// Of no thread.
    fn none(alloc: Global) -> Gathered
        ensures { result ≡ record { places = []; stops = []; accesses = 0 } }
    {
        Gathered {
            places: List::new(alloc),
            stops: List::new(alloc),
            accesses: 0,
        }
    }

    /// Adds the walk of the next thread.
    fn add(&mut self, followed: Followed) -> Result<(), Memory>
        requires { self.old.accesses + followed.accesses < 2 ^ 64 }
        ensures { OnOk result (self.new ≡ record { places = self.old.places ++ followed.places ∷ []; stops = self.old.stops ++ followed.stop ∷ []; accesses = self.old.accesses + followed.accesses }) }
    {
        let Followed {
            places,
            accesses,
            stop,
        } = followed;
        self.places.push(places)?;
        self.stops.push(stop)?;
        self.accesses += accesses;
        Ok(())
    }
}

/// Whether the threads of all calls are below a number.
pub fn are_callers_below(calls: &[CallRec], count: usize) -> bool
    ensures { IsTrue result ↔ All (λ r. r.tid < count) calls.now }
{
    calls.iter().all(|r| usize::from(r.tid) < count)
}

/// The walks of all threads of a log, none where one has no walk.
pub fn gather(alloc: Global, image: &Image, log: &Log) -> Result<Option<Gathered>, Memory>
    ensures some { IfOk result (λ found. IfSome found (IsGathered image.now log.now (length log.now.threads))) }
    ensures none { IfOk result (λ found. IfNone found (((thread : ℕ) → thread < length log.now.threads → HasWalk image.now log.now thread) → ⊥)) }
{
    let mut gathered = Gathered::none(alloc);
    for thread in 0..log.threads.len() {
        let Some(followed) = walk_thread(alloc, image, log, thread)? else {
            return Ok(None);
        };
        gathered.add(followed)?;
    }
    Ok(Some(gathered))
}
