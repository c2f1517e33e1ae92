//! The machine: its threads over one memory, changed in place by one atomic step at a time.

ghost use Rattle.std.specs.Prelude.{◌≡◌, ℕ, ◌+◌, ◌<◌, ◌^◌, ◌≤◌, [], List, length, take, true, is_some, is_none, slice_index_or, IfOk, IsTrue, IsFalse};
ghost use Rattle.guest_mem.specs.Accesses.{byte_of};
ghost use Rattle.guest_mem.specs.Blocks.{cells_of};
ghost use Rattle.rv_model.specs.declared.state.State.{State};
ghost use Rattle.rv32_decode.specs.Valid.{IsValid};
ghost use Rattle.rv_model.specs.Thread.{register};
ghost use Rattle.rv_model.specs.Calls.{made, waits, owner_of};
ghost use Rattle.rv_model.specs.Instruction.{act, asked_at, asked_by, access_of, reserving};
ghost use Rattle.rv_model.specs.Step.{thread_at, memory_of, opening, effect, applied, faulted, instr_at, next_instr, reach_at, reach_of, is_enabled, enabled_in};
ghost use Rattle.rv_model.specs.Run.{end_of};
ghost use Rattle.guest_calls.specs.Table.{is_live};
ghost use Rattle.guest_machine.specs.Hearing.{heard_of};
ghost use Rattle.guest_machine.specs.Waiting.{wait_at, held_up, enabled_threads};
ghost use Rattle.guest_machine.specs.Whole.{StandsFor, Steps, Follows, may_step};

use crate::after::{child_of, go_on, halt_then, reserving, wins};
use crate::code::is_call;
use crate::enabled::put_if;
use crate::note::Note;
use crate::run::{args_of, run};
use crate::span::written;
use crate::threads::Threads;
use crate::wait::{Wait, held_up};
use elf_image::image::Image;
use guest_calls::call_state::CallState;
use guest_mem::guest_memory::GuestMem;
use odr_list::memory::Memory;
use odr_log::log::{Cause, End};
use rv_model::code::instr_at;
use rv_model::state::{Halt, Local, Thread};
use rv32_decode::instr::Instr;
use std::alloc::Global;
use std::marker::Model;

/// A machine over an image: eight threads at most, the state that their calls share, and memory.
#[derive(Drop)]
pub struct Machine<'a> {
    image: &'a Image,
    memory: GuestMem,
    threads: Threads,
    calls: CallState,
    halt: Option<Halt>,
}

impl<'a> Model for Machine<'a> {
    ghost use Rattle.std.specs.Prelude.{◌≡◌, length};
    ghost use Rattle.rv_model.specs.Thread.{register};
    ghost use Rattle.rv_model.specs.Calls.{made};
    ghost use Rattle.guest_machine.specs.Whole.{Whole};

    ghost Value = { Whole };

    ghost view = { λ m. record { image = m.image.now; core = record { threads = m.threads; calls = m.calls; halt = m.halt }; blocks = m.memory } };

    ghost invariant = { λ m. length m.threads ≡ made m.calls };
}

impl<'a> Machine<'a> {
    /// The machine before its first step, over an input. No later call takes memory.
    ///
    /// # Errors
    ///
    /// `Memory` alone.
    pub fn load(alloc: Global, image: &'a Image, tape: Vec<u8>) -> Result<Machine<'a>, Memory>
        ensures image { IfOk result (λ machine. machine.image ≡ image.now) }
        ensures opening { IfOk result (λ machine. StandsFor machine (opening image.now tape.items)) }
    {
        let memory = GuestMem::load(alloc, image)?;
        let threads = Threads::of_first(alloc, Thread::fresh(Local::first(image.entry())))?;
        Ok(Machine {
            image,
            memory,
            threads,
            calls: CallState::new(alloc, tape),
            halt: None,
        })
    }

    /// Whether a thread whose next instruction is a guest call waits in it.
    fn is_blocked(&self, tid: u8) -> bool
        requires { tid < length self.now.core.threads }
        ensures { result ≡ waits self.now.core.calls tid (asked_at (thread_at self.now.core tid).local (next_instr self.now.image self.now.core tid) (reach_at self.now.image (cells_of self.now.blocks) self.now.core tid)) }
    {
        let local = &self.threads.get(tid).local;
        if !is_call(self.image, local.pc) {
            return false;
        }
        self.calls.blocked(tid, args_of(local))
    }

    /// Whether a thread may step: it was made and has not ended, no lock or join holds it up, and the machine
    /// has not halted.
    #[tactic(auto, using(crate::proofs::StandsLemmas::stood_for))]
    pub fn enabled(&self, tid: u8) -> bool
        ensures value { result ≡ may_step self.now tid }
        ensures state { (state : State) → StandsFor self.now state → result ≡ is_enabled self.now.image state tid }
        ensures there { IsTrue result → tid < length self.now.core.threads }
    {
        self.is_enabled(tid)
    }

    #[tactic(auto, unfolding(rv_model::specs::Step::enabled))]
    fn is_enabled(&self, tid: u8) -> bool
        ensures value { result ≡ may_step self.now tid }
        ensures there { IsTrue result → tid < length self.now.core.threads }
    {
        (tid as usize) < self.threads.len()
            && self.calls.end_value(u32::from(tid)).is_none()
            && self.halt.is_none()
            && !self.is_blocked(tid)
    }

    /// The threads that may step, in rising order, put first into `into`; the answer is their number.
    #[tactic(auto, using(crate::proofs::EnabledLemmas::enabled_lists))]
    pub fn enabled_list(&self, into: &mut [u8; 8]) -> usize
        ensures number { result ≡ length (enabled_threads self.now) }
        ensures threads { take result into.new ≡ enabled_threads self.now }
        ensures place { length into.new ≡ 8 }
        ensures state { (state : State) → StandsFor self.now state → enabled_threads self.now ≡ enabled_in self.now.image state }
    {
        let mut count = 0;
        for tid in 0..self.threads() {
            count = put_if(into, count, tid, self.enabled(tid));
        }
        count
    }

    /// Does the instruction that a thread is at.
    #[tactic(auto, using(crate::proofs::StepLemmas::executed))]
    fn execute(&mut self, tid: u8, before: Thread, instr: &Instr) -> Note
        requires valid { IsValid instr.now }
        requires thread { before ≡ thread_at self.old.core tid }
        requires live { IsTrue (is_live self.old.core.calls tid) }
        requires unblocked { IsFalse (waits self.old.core.calls tid (asked_by before.local instr.now (reach_of (cells_of self.old.blocks) (access_of before.local instr.now)))) }
        requires room { before.retired + 1 < 2 ^ 32 }
        ensures { Follows self.old (applied self.old.core tid (reserving before.local instr.now before.reservation) (act before.local instr.now (heard_of (cells_of self.old.blocks) self.old.core.calls tid before.reservation before.local instr.now))) result self.new }
    {
        let won = wins(&before, instr);
        let mut local = before.local;
        match run(
            &mut local,
            &mut self.memory,
            &mut self.calls,
            tid,
            instr,
            won,
        ) {
            Err(cause) => self.fault(tid, cause),
            Ok(note) => {
                let after = Thread {
                    local,
                    reservation: reserving(&before, instr),
                    retired: before.retired + 1,
                };
                let span = written(&before.local, instr, won, &note);
                let child = child_of(&before.local, &note);
                go_on(&mut self.threads, tid, after, span, child);
                self.halt = halt_then(tid, &note);
                note
            }
        }
    }

    /// One atomic step of a thread that may step: one instruction with all its memory bytes and its whole
    /// guest call. `effect` says it of the machine alone, `state` of every state of the model that the machine
    /// stands for.
    #[tactic(auto, using(crate::proofs::StandsLemmas::follows_steps))]
    pub fn step(&mut self, tid: u8) -> Note
        requires enabled { may_step self.old tid ≡ true }
        requires room { (thread_at self.old.core tid).retired + 1 < 2 ^ 32 }
        ensures effect { Follows self.old (effect self.old.image (cells_of self.old.blocks) self.old.core tid) result self.new }
        ensures state { (before : State) → StandsFor self.old before → Steps before tid result self.new }
    {
        self.step_once(tid)
    }

    /// Whether the machine has halted.
    pub fn halted(&self) -> bool
        ensures { result ≡ is_some self.now.core.halt }
    {
        self.halt.is_some()
    }

    /// The end that the log of a run has which ends here.
    pub fn end(&self) -> End
        ensures { result ≡ end_of self.now.core }
    {
        match self.halt {
            Some(Halt::Exited { tid, code }) => End::Exited { tid, code },
            Some(Halt::Faulted { tid, cause }) => End::Faulted { tid, cause },
            None if self.calls.all_ended() => End::AllDone,
            None => End::Cut,
        }
    }

    /// What a thread waits for, by the rule of blocking alone: a halt changes nothing of it.
    #[tactic(auto, using(crate::proofs::StandsLemmas::stood_for))]
    pub fn wait(&self, tid: u8) -> Wait
        requires { tid < length self.now.core.threads }
        ensures value { result ≡ wait_at self.now.image (cells_of self.now.blocks) self.now.core tid }
        ensures state { (state : State) → StandsFor self.now state → result ≡ wait_at self.now.image (memory_of self.now.image state) state.core tid }
    {
        match self.calls.end_value(u32::from(tid)) {
            Some(value) => Wait::Ended(value),
            None => self.held_up(tid),
        }
    }

    /// What the next instruction of a thread waits for.
    fn held_up(&self, tid: u8) -> Wait
        requires { tid < length self.now.core.threads }
        ensures { result ≡ held_up self.now.core.calls tid (asked_at (thread_at self.now.core tid).local (next_instr self.now.image self.now.core tid) (reach_at self.now.image (cells_of self.now.blocks) self.now.core tid)) }
    {
        let local = &self.threads.get(tid).local;
        if !is_call(self.image, local.pc) {
            return Wait::Ready;
        }
        held_up(&self.calls, tid, args_of(local))
    }

    /// The number of threads that were made.
    pub fn threads(&self) -> u8
        ensures value { result ≡ length self.now.core.threads }
        ensures few { result ≤ 8 }
    {
        self.threads.len() as u8
    }

    /// The number of instructions that a thread retired.
    pub fn retired(&self, tid: u8) -> u32
        requires { tid < length self.now.core.threads }
        ensures { result ≡ (thread_at self.now.core tid).retired }
    {
        self.threads.get(tid).retired
    }

    /// The address of a thread's next instruction.
    pub fn pc(&self, tid: u8) -> u32
        requires { tid < length self.now.core.threads }
        ensures { result ≡ (thread_at self.now.core tid).local.pc }
    {
        self.threads.get(tid).local.pc
    }

    /// A register of a thread.
    pub fn reg(&self, tid: u8, number: u8) -> u32
        requires thread { tid < length self.now.core.threads }
        requires number { number < 32 }
        ensures { result ≡ register (thread_at self.now.core tid).local number }
    {
        self.threads.get(tid).local.register(number)
    }

    /// The thread that holds a mutex.
    pub fn owner(&self, mutex: u8) -> Option<u8>
        requires { mutex < 32 }
        ensures { result ≡ owner_of self.now.core.calls mutex }
    {
        self.calls.owner_of(u32::from(mutex))
    }

    /// The byte at an address. None outside the image's regions and the stacks.
    pub fn byte(&self, address: u32) -> Option<u8>
        ensures byte { result ≡ byte_of (cells_of self.now.blocks) address }
        ensures state { (state : State) → StandsFor self.now state → result ≡ byte_of (memory_of self.now.image state) address }
    {
        self.memory.byte(address)
    }

    /// Does one step, in the terms of the model's effect.
    #[tactic(auto, using(crate::proofs::StepLemmas::stepped), unfolding(rv_model::specs::Step::effect, rv_model::specs::Step::enabled))]
    fn step_once(&mut self, tid: u8) -> Note
        requires enabled { may_step self.old tid ≡ true }
        requires room { (thread_at self.old.core tid).retired + 1 < 2 ^ 32 }
        ensures { Follows self.old (effect self.old.image (cells_of self.old.blocks) self.old.core tid) result self.new }
    {
        let before = *self.threads.get(tid);
        match instr_at(self.image, before.local.pc) {
            Err(cause) => self.fault(tid, cause),
            Ok(instr) => self.execute(tid, before, &instr),
        }
    }

    /// Halts the machine at a fault.
    fn fault(&mut self, tid: u8, cause: Cause) -> Note
        ensures { Follows self.old (faulted self.old.core tid cause) result self.new }
    {
        self.halt = Some(Halt::Faulted { tid, cause });
        Note::Fault(cause)
    }
}
