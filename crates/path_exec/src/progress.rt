//! Symbolic paths so far.
ghost use Rattle.std.specs.Prelude.{◌≡◌, ◌<◌, ◌++◌, None, length, replicate, option_to_list, IfOk, OnOk};
ghost use Rattle.path_exec.specs.Following.{begun, with_child, with_end, with_step};
ghost use Rattle.step_terms.specs.Made.{Grows};
ghost use Rattle.thread_terms.specs.Standing.{BeginsAs};

use crate::child::Child;
use crate::walker::Walker;
use bv_terms::node::TermId;
use bv_terms::pool::TermPool;
use odr_list::list::List;
use odr_list::memory::Memory;
use std::alloc::Global;
use thread_terms::access::{Access, Stepped};
use thread_terms::start::first;

/// What the steps that were followed add.
#[derive(Debug, Drop)]
pub struct Progress {
    /// Of each thread that has begun, where it stands.
    pub walkers: List<Option<Walker>>,
    /// Of each thread that has ended, its a0 before the call by which it ended.
    pub ends: List<Option<TermId>>,
    pub accesses: List<Access>,
    /// Terms of one bit.
    pub constraints: List<TermId>,
}

/// What a step of a thread leaves.
#[derive(Debug, Drop)]
pub struct Left {
    pub walker: Walker,
    /// The thread that it made.
    pub child: Option<Child>,
    /// a0 before it, where it ended its thread.
    pub end: Option<TermId>,
    pub stepped: Stepped,
}

impl Progress {
    /// Before the first step: thread 0 has begun.
    pub fn new(alloc: Global, pool: &mut TermPool<'_>, threads: usize) -> Result<Progress, Memory>
        requires some { 0 < threads }
        ensures begun { IfOk result (λ progress. (walker : Walker) × BeginsAs pool.new walker.registers × (walker.link ≡ None) × (progress ≡ begun threads walker)) }
        ensures grows { Grows pool.old pool.new }
    {
        let registers = first(pool)?;
        let mut walkers = List::of(vec![in alloc; None; threads]?);
        walkers.set(
            0,
            Some(Walker {
                registers,
                link: None,
            }),
        );
        Ok(Progress {
            walkers,
            ends: List::of(vec![in alloc; None; threads]?),
            accesses: List::new(alloc),
            constraints: List::new(alloc),
        })
    }

    // Keeps the thread that a step made.
    fn keep_child(&mut self, child: Option<Child>)
        ensures { self.new ≡ record self.old { walkers = with_child self.old.walkers child } }
    {
        if let Some(made) = child {
            let thread = usize::from(made.thread);
            if thread < self.walkers.len() {
                self.walkers.set(thread, Some(made.walker));
            }
        }
    }

    // Keeps the value with which a thread ended.
    fn keep_end(&mut self, thread: u8, end: Option<TermId>)
        requires { thread < length self.old.ends }
        ensures { self.new ≡ record self.old { ends = with_end self.old.ends thread end } }
    {
        if end.is_some() {
            self.ends.set(usize::from(thread), end);
        }
    }

    // Keeps the access of a step.
    fn keep_access(&mut self, access: Option<Access>) -> Result<(), Memory>
        ensures { OnOk result (self.new ≡ record self.old { accesses = self.old.accesses ++ option_to_list access }) }
    {
        match access {
            Some(access) => self.accesses.push(access),
            None => Ok(()),
        }
    }

    /// Keeps what a step leaves. After `Memory` it may be kept in part.
    pub fn keep(&mut self, thread: u8, left: Left) -> Result<(), Memory>
        requires walker { thread < length self.old.walkers }
        requires end { thread < length self.old.ends }
        ensures { OnOk result (self.new ≡ with_step self.old thread left) }
    {
        let Left {
            walker,
            child,
            end,
            stepped: Stepped { constraint, access },
        } = left;
        self.walkers.set(usize::from(thread), Some(walker));
        self.keep_child(child);
        self.keep_end(thread, end);
        self.keep_access(access)?;
        self.constraints.push(constraint)
    }
}
