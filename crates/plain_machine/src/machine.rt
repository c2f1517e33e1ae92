ghost use Rattle.std.specs.Prelude.{◌≡◌, ◌+◌, ◌≤◌, ◌<◌, ◌^◌, ℕ, List, map, slice_set, ◌++◌, length, IfOk, IfErr, IsTrue, Result, Ok, Err, MatchResult, is_none, true, option_to_list, ◌&&◌};
ghost use Rattle.std.specs.Bool.{OnTrue};
ghost use Rattle.elf_image.specs.Memory.{cells_after, opening_cells};
ghost use Rattle.rv32_decode.specs.Valid.{IsValid};
ghost use Rattle.rv_model.specs.Thread.{losing, touches, surviving};
ghost use Rattle.rv_model.specs.Calls.{made, end_value};
ghost use Rattle.plain_machine.specs.Met.{IsMet};
ghost use Rattle.rv_model.specs.Instruction.{access_at, asked_at, conditional_at, reserving_at, act_at};
ghost use Rattle.rv_model.specs.Step.{opening_core, opening, memory_of, instr_at, thread_at, next_instr, reach_at, heard_at, enabled, is_enabled, child_of, calls_then, halt_then, faulted, gone, applied, effect, after_effect, step};

use crate::act::{access_of, act, asked_by, conditional_of, reserving, wins};
use crate::calls::{calls_after, end_value, join_value, reply_to, waits};
use crate::memory::reach;
use elf_image::image::Image;
use odr_list::bytes::Bytes;
use odr_list::list::List;
use odr_list::memory::Memory;
use odr_log::log::{Call, Cause};
use rv_model::code::instr_at;
use rv_model::hearing::{Access, Asked, Heard, Outcome, Reach};
use rv_model::state::{Calls, Core, Halt, Local, Note, State, Stepped, Thread};
use rv_model::writes::Writes;
use rv32_decode::instr::Instr;
use std::alloc::Global;

/// The machine before its first step, over an image and an input.
pub fn opening(alloc: Global, image: &Image, tape: Bytes) -> Result<State, Memory>
    ensures { IfOk result (λ state. state ≡ opening image.now tape) }
{
    let mut threads = List::new(alloc);
    threads.push(Thread::fresh(Local::first(image.entry())))?;
    let mut ended = List::new(alloc);
    ended.push(None)?;
    let owners = [None; 32];
    Ok(State {
        core: Core {
            threads,
            calls: Calls {
                ended,
                owners,
                tape,
            },
            halt: None,
        },
        writes: Writes::new(alloc),
    })
}

fn thread_at(core: &Core, thread: u8) -> Thread
    requires { thread < length core.now.threads }
    ensures { result ≡ thread_at core.now thread }
{
    core.threads.as_slice()[thread as usize]
}

/// The bytes that the next instruction accesses, none where there is no instruction.
fn access_at(local: &Local, fetched: &Result<Instr, Cause>) -> Access
    requires { IfOk fetched.now IsValid }
    ensures { result ≡ access_at local.now fetched.now }
{
    match fetched {
        Ok(instr) => access_of(local, instr),
        Err(_) => Access {
            address: 0,
            count: 0,
        },
    }
}

fn asked_at(local: &Local, fetched: &Result<Instr, Cause>, reach: &Reach) -> Option<Asked>
    ensures { result ≡ asked_at local.now fetched.now reach.now }
{
    match fetched {
        Ok(instr) => asked_by(local, instr, reach),
        Err(_) => None,
    }
}

/// What the next instruction of a thread meets.
fn reach_at(
    alloc: Global,
    image: &Image,
    state: &State,
    thread: u8,
    fetched: &Result<Instr, Cause>,
) -> Result<Reach, Memory>
    requires thread { thread < length state.now.core.threads }
    requires next { fetched.now ≡ next_instr image.now state.now.core thread }
    requires valid { IfOk fetched.now IsValid }
    ensures { IfOk result (λ reach. reach ≡ reach_at image.now (memory_of image.now state.now) state.now.core thread) }
{
    let local = thread_at(&state.core, thread).local;
    reach(alloc, image, &state.writes, access_at(&local, fetched))
}

/// Whether a thread is enabled: it exists, has not ended and does not wait, and the machine has not halted.
#[tactic(auto, unfolding(rv_model::specs::Step::is_enabled, rv_model::specs::Step::enabled))]
pub fn enabled(alloc: Global, image: &Image, state: &State, thread: u8) -> Result<bool, Memory>
    ensures value { IfOk result (λ able. able ≡ is_enabled image.now state.now thread) }
    ensures there { IfOk result (λ able. OnTrue able (thread < length state.now.core.threads)) }
{
    if (thread as usize) >= state.core.threads.len() || !is_live(&state.core, thread) {
        return Ok(false);
    }
    let local = thread_at(&state.core, thread).local;
    let fetched = instr_at(image, local.pc);
    let reach = reach_at(alloc, image, state, thread, &fetched)?;
    let asked = asked_at(&local, &fetched, &reach);
    Ok(!waits(&state.core.calls, thread, asked))
}

fn is_live(core: &Core, thread: u8) -> bool
    ensures { result ≡ (is_none (end_value core.now.calls thread) && is_none core.now.halt) }
{
    end_value(&core.calls, u32::from(thread)).is_none() && core.halt.is_none()
}

/// What the next instruction of a thread hears.
fn heard_at(
    alloc: Global,
    image: &Image,
    state: &State,
    thread: u8,
    instr: &Instr,
) -> Result<Heard, Memory>
    requires thread { thread < length state.now.core.threads }
    requires next { Ok instr.now ≡ next_instr image.now state.now.core thread }
    requires valid { IsValid instr.now }
    ensures value { IfOk result (λ heard. heard ≡ heard_at image.now (memory_of image.now state.now) state.now.core thread) }
    ensures met { IfOk result (λ heard. IsMet (thread_at state.now.core thread).local instr.now heard) }
{
    let before = thread_at(&state.core, thread);
    let access = access_of(&before.local, instr);
    let reach = reach(alloc, image, &state.writes, access)?;
    let asked = asked_by(&before.local, instr, &reach);
    let reply = reply_to(alloc, &state.core.calls, thread, asked)?;
    Ok(Heard {
        thread,
        won: wins(conditional_of(&before.local, instr), before.reservation),
        joined: join_value(&state.core.calls, asked),
        reach,
        reply,
    })
}

fn fault(state: State, thread: u8, cause: Cause) -> Stepped
    ensures { result ≡ after_effect state (faulted state.core thread cause) }
{
    let State { core, writes } = state;
    let Core { threads, calls, .. } = core;
    let halt = Some(Halt::Faulted { tid: thread, cause });
    Stepped {
        state: State {
            core: Core {
                threads,
                calls,
                halt,
            },
            writes,
        },
        note: Note::Faulted(cause),
    }
}

/// The threads without the reservations of words that were written.
fn losing(alloc: Global, threads: &[Thread], writes: &Writes) -> Result<List<Thread>, Memory>
    ensures { IfOk result (λ left. left ≡ map (losing writes.now) threads.now) }
{
    let mut left = List::new(alloc);
    for thread in threads {
        left.push(without_lost(thread, writes))?;
    }
    Ok(left)
}

fn without_lost(thread: &Thread, writes: &Writes) -> Thread
    ensures { result ≡ losing writes.now thread.now }
{
    let mut left = *thread;
    if let Some(reserved) = left.reservation {
        if writes.touches(reserved) {
            left.reservation = None;
        }
    }
    left
}

/// The thread that a step makes.
fn child_of(local: &Local, note: &Note) -> Option<Thread>
    ensures { option_to_list result ≡ child_of local.now note.now }
{
    match note {
        Note::Called(
            Call::Spawn {
                entry,
                child: Some(child),
            },
        ) => {
            let made = Local::spawned(*child, *entry, local.register(3), local.register(11));
            Some(Thread::fresh(made))
        }
        _ => None,
    }
}

/// The threads after a step.
fn threads_after(
    alloc: Global,
    core: &Core,
    thread: u8,
    after: Thread,
    writes: &Writes,
    note: &Note,
) -> Result<List<Thread>, Memory>
    requires { thread < length core.now.threads }
    ensures { IfOk result (λ threads. threads ≡ slice_set (map (losing writes.now) core.now.threads) thread after ++ child_of (thread_at core.now thread).local note.now) }
{
    let before = thread_at(core, thread);
    let mut threads = losing(alloc, core.threads.as_slice(), writes)?;
    threads.set(thread as usize, after);
    if let Some(child) = child_of(&before.local, note) {
        threads.push(child)?;
    }
    Ok(threads)
}

fn calls_then(
    alloc: Global,
    calls: Calls,
    thread: u8,
    a0: u32,
    note: &Note,
) -> Result<Calls, Memory>
    ensures { IfOk result (λ after. after ≡ calls_then calls thread a0 note.now) }
{
    match note {
        Note::Called(call) => calls_after(alloc, calls, thread, a0, call),
        _ => Ok(calls),
    }
}

fn halt_then(thread: u8, note: &Note) -> Option<Halt>
    ensures { result ≡ halt_then thread note.now }
{
    match note {
        Note::Called(Call::Exit { code }) => Some(Halt::Exited {
            tid: thread,
            code: *code,
        }),
        _ => None,
    }
}

/// A step that goes on, from what its instruction did.
fn go(
    alloc: Global,
    state: State,
    thread: u8,
    after: Thread,
    writes: Writes,
    note: Note,
) -> Result<Stepped, Memory>
    requires thread { thread < length state.core.threads }
    requires retired { after.retired ≡ (thread_at state.core thread).retired + 1 }
    ensures { IfOk result (λ stepped. stepped ≡ after_effect state (gone state.core thread after.reservation after.local writes note)) }
{
    let before = thread_at(&state.core, thread);
    let threads = threads_after(alloc, &state.core, thread, after, &writes, &note)?;
    let State {
        core,
        writes: older,
    } = state;
    let Core { calls, .. } = core;
    let calls = calls_then(alloc, calls, thread, before.local.register(10), &note)?;
    let halt = halt_then(thread, &note);
    let mut all = older;
    all.extend(&writes)?;
    Ok(Stepped {
        state: State {
            core: Core {
                threads,
                calls,
                halt,
            },
            writes: all,
        },
        note,
    })
}

/// One step of an enabled thread: one instruction with all its memory bytes and its whole guest call.
#[tactic(auto, unfolding(rv_model::specs::Step::step, rv_model::specs::Step::effect))]
pub fn step(alloc: Global, image: &Image, state: State, thread: u8) -> Result<Stepped, Memory>
    requires enabled { is_enabled image.now state thread ≡ true }
    requires room { (thread_at state.core thread).retired + 1 < 2 ^ 32 }
    ensures { IfOk result (λ stepped. stepped ≡ step image.now state thread) }
{
    let before = thread_at(&state.core, thread);
    let instr = match instr_at(image, before.local.pc) {
        Err(cause) => return Ok(fault(state, thread, cause)),
        Ok(instr) => instr,
    };
    let heard = heard_at(alloc, image, &state, thread, &instr)?;
    match act(alloc, before.local, &instr, heard)? {
        Outcome::Faults(cause) => Ok(fault(state, thread, cause)),
        Outcome::Goes {
            local,
            writes,
            note,
        } => {
            let after = Thread {
                local,
                reservation: reserving(&before.local, &instr, before.reservation),
                retired: before.retired + 1,
            };
            go(alloc, state, thread, after, writes, note)
        }
    }
}
