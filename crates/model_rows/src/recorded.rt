//! Walks and recorded orders of whole programs and their logs.

use crate::files::program_file;
use elf_image::image::Image;
use guest_programs::logs::{LOCKED_LOG, LOST_UPDATE_LOG};
use guest_programs::programs::{HELLO, LOCKED, LOST_UPDATE, Program};
use happens_before::order::Order;
use odr_log::log::Pos;
use odr_log::read_log;
use std::alloc::Global;
use std::process::Abort;
use std::test::Fail;
use trace_path::Traces;

/// A thread and a step.
type Step = (u8, u32);

/// The accesses of two workers that add 1 without a lock, and of the thread that made them: each worker loads the sum
/// and stores it, the other loads it, stores the digit and writes it out.
const LOST_UPDATE_ACCESSES: [Step; 7] = [(0, 15), (0, 17), (0, 21), (1, 2), (1, 4), (2, 2), (2, 4)];

/// The same with a lock.
const LOCKED_ACCESSES: [Step; 7] = [(0, 15), (0, 17), (0, 21), (1, 5), (1, 7), (2, 5), (2, 7)];

fn pos((thread, step): Step) -> Pos {
    Pos { thread, step }
}

/// The number of accesses of a program's walk along a log, if there is a walk.
fn accesses(
    rt: &impl Abort,
    alloc: Global,
    program: Program,
    log: &[u8],
) -> Result<Option<u64>, Fail> {
    let file = program_file(alloc, program)?;
    let Ok(image) = Image::read(alloc, file.as_slice()) else {
        return Err("no image".into());
    };
    let Ok(log) = read_log(alloc, log) else {
        return Err("no log".into());
    };
    assert!(rt; !log.threads.is_empty());
    Ok(Traces::build(alloc, &image, &log)?.map(|traces| traces.access_count()))
}

/// The order that the bytes of a log record, if their calls fit.
fn order(alloc: Global, log: &[u8]) -> Result<Option<Order>, Fail> {
    let Ok(log) = read_log(alloc, log) else {
        return Err("no log".into());
    };
    Ok(Order::new(alloc, &log)?)
}

/// The pairs of steps that an order leaves open, each once.
fn open_pairs(alloc: Global, order: &Order, steps: &[Step]) -> Result<Vec<(Step, Step)>, Fail> {
    let mut open = Vec::new(alloc);
    for (place, first) in steps.iter().enumerate() {
        for second in steps.iter().skip(place) {
            if order.is_open(pos(*first), pos(*second)) {
                open.push((*first, *second))?;
            }
        }
    }
    Ok(open)
}

#[test]
fn walks_have_their_accesses(rt: HostRuntime) -> Result<(), Fail> {
    let table = [
        (LOST_UPDATE, LOST_UPDATE_LOG.as_slice(), Some(7)),
        (LOCKED, LOCKED_LOG.as_slice(), Some(7)),
        // The walk leaves the instructions.
        (HELLO, LOST_UPDATE_LOG.as_slice(), None),
    ];
    for (program, log, wanted) in table {
        assert_eq!(rt; accesses(&rt, rt.alloc(), program, log)?, wanted);
    }
    Ok(())
}

#[test]
fn workers_race_without_a_lock(rt: HostRuntime) -> Result<(), Fail> {
    let Some(order) = order(rt.alloc(), &LOST_UPDATE_LOG)? else {
        return Err("the calls fit".into());
    };
    let open = open_pairs(rt.alloc(), &order, &LOST_UPDATE_ACCESSES)?;
    let wanted = [
        ((1, 2), (2, 2)),
        ((1, 2), (2, 4)),
        ((1, 4), (2, 2)),
        ((1, 4), (2, 4)),
    ];
    assert_eq!(rt; open.as_slice(), wanted.as_slice());
    for (first, second) in [((0, 7), (2, 0)), ((1, 4), (0, 15))] {
        assert!(rt;
            order.before(pos(first), pos(second)),
            "{first:?} {second:?}"
        );
        assert!(rt;
            !order.before(pos(second), pos(first)),
            "{second:?} {first:?}"
        );
    }
    Ok(())
}

#[test]
fn a_lock_leaves_no_pair_open(rt: HostRuntime) -> Result<(), Fail> {
    let Some(order) = order(rt.alloc(), &LOCKED_LOG)? else {
        return Err("the calls fit".into());
    };
    assert!(rt; open_pairs(rt.alloc(), &order, &LOCKED_ACCESSES)?.is_empty());
    Ok(())
}

#[test]
fn a_mutex_is_not_locked_twice(rt: HostRuntime) -> Result<(), Fail> {
    // The second worker's lock stands before the first one's unlock.
    let mut log = LOCKED_LOG[..67].to_vec(rt.alloc())?;
    log.extend_from_slice(&LOCKED_LOG[78..89])?;
    log.extend_from_slice(&LOCKED_LOG[67..78])?;
    log.extend_from_slice(&LOCKED_LOG[89..])?;
    assert!(rt; order(rt.alloc(), log.as_slice())?.is_none());
    Ok(())
}
