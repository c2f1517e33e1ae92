//! What the run of a schedule shows and hears at each step.

use crate::no_run::NoRun;
use elf_image::image::Image;
use odr_list::bytes::Bytes;
use odr_list::list::List;
use odr_log::log::{Log, Pos};
use odr_log::tape;
use plain_machine::act::{access_of, conditional_of, wins};
use plain_machine::machine as plain;
use plain_machine::memory::reach;
use plain_walk::given::Supplied;
use rv_model::code::instr_at;
use rv_model::state::{State, Thread};
use std::alloc::{AllocError, Global};

/// No thread of a worked log takes so many.
pub const MOST_STEPS: u32 = 1000;

/// What the steps of each of eight threads heard from memory and reservations, and the steps in the order of the schedule.
#[derive(Drop)]
pub struct Ran {
    pub rows: Vec<List<Supplied>>,
    pub steps: Vec<Pos>,
}

/// Steps of a schedule from its runs of one thread.
pub fn schedule_of(alloc: Global, runs: &[(u8, usize)]) -> Result<Vec<u8>, AllocError> {
    let mut schedule = Vec::new(alloc);
    for (thread, count) in runs {
        let longer = schedule.len().saturating_add(*count);
        schedule.resize(longer, *thread)?;
    }
    Ok(schedule)
}

/// The steps of a schedule in their order.
pub fn places(alloc: Global, schedule: &[u8]) -> Result<Vec<Pos>, AllocError> {
    let mut counts = [0u32; 256];
    let mut steps = Vec::new(alloc);
    for thread in schedule {
        let step = counts[*thread as usize];
        counts[*thread as usize] = step.saturating_add(1);
        steps.push(Pos {
            thread: *thread,
            step,
        })?;
    }
    Ok(steps)
}

/// What a thread's next step reads from memory, and whether a store-conditional would succeed.
fn supplied(
    alloc: Global,
    image: &Image,
    state: &State,
    thread: &Thread,
) -> Result<Supplied, NoRun> {
    let Ok(instr) = instr_at(image, thread.local.pc) else {
        return Ok(Supplied {
            bytes: Bytes::new(alloc),
            won: false,
        });
    };
    let access = access_of(&thread.local, &instr);
    let met = reach(alloc, image, &state.writes, access)?;
    let conditional = conditional_of(&thread.local, &instr);
    Ok(Supplied {
        bytes: met.bytes.unwrap_or(Bytes::new(alloc)),
        won: wins(conditional, thread.reservation),
    })
}

/// What the next step of a thread hears, and the state after it.
#[derive(Drop)]
struct Next {
    heard: Supplied,
    state: State,
}

fn advance(alloc: Global, image: &Image, state: State, thread: u8) -> Result<Next, NoRun> {
    if !plain::enabled(alloc, image, &state, thread)? {
        return Err(NoRun::Schedule);
    }
    let Some(before) = state.core.threads.as_slice().get(thread as usize).copied() else {
        return Err(NoRun::Schedule);
    };
    if before.retired >= MOST_STEPS {
        return Err(NoRun::Schedule);
    }
    let heard = supplied(alloc, image, &state, &before)?;
    let stepped = plain::step(alloc, image, state, thread)?;
    Ok(Next {
        heard,
        state: stepped.state,
    })
}

/// No steps yet of eight threads.
fn no_rows(alloc: Global) -> Result<Vec<List<Supplied>>, AllocError> {
    let mut rows = Vec::new(alloc);
    for _thread in 0..8 {
        rows.push(List::new(alloc))?;
    }
    Ok(rows)
}

/// The run of a schedule over the input of a log.
///
/// # Errors
///
/// `NoRun`, where a step of the schedule can't be taken.
pub fn run(alloc: Global, image: &Image, log: &Log, schedule: &[u8]) -> Result<Ran, NoRun> {
    let mut rows = no_rows(alloc)?;
    let mut state = plain::opening(alloc, image, Bytes::of(tape(alloc, log)?))?;
    for thread in schedule {
        let next = advance(alloc, image, state, *thread)?;
        match rows.get_mut(*thread as usize) {
            Some(row) => row.push(next.heard)?,
            None => return Err(NoRun::Schedule),
        }
        state = next.state;
    }
    Ok(Ran {
        rows,
        steps: places(alloc, schedule)?,
    })
}
