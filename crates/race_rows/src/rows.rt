//! The accesses of worked logs, and small lists of accesses of one of them.

use crate::shapes::{Access, Does, Sight, Step, has, order_of, seen_of, shapes_of, steps_of};
use Does::{Both, Reads, Stores, Writes};
use bumpalo::Bump;
use clause_store::store::ClauseStore;
use guest_programs::logs::{
    BYTES_MERGE_LOG, LOCKED_LOG, LOST_UPDATE_LOG, STORE_CONDITIONAL_PAIRS_LOG,
};
use happens_before::order::Order;
use odr_list::memory::Memory;
use odr_log::log::Pos;
use order_vars::order_vars::OrderVars;
use race_set::race_set::{RaceSet, open_accesses};
use std::alloc::Global;
use std::test::Fail;

/// A log, accesses of its steps, those that need an order with the number of their open pairs, and what is seen.
#[derive(Clone, Copy)]
struct Row {
    log: &'static [u8],
    accesses: &'static [Access],
    ordered: &'static [Step],
    pairs: usize,
    seen: &'static [Sight],
}

/// The word that the workers share, and the one behind it.
const WORD: u32 = 0x10_0000;

const NEXT: u32 = 0x10_0004;

/// Thread 0 makes thread 1 at step 4 and thread 2 at step 7, and goes on at step 13 once both are done.
static WORKED: [Row; 4] = [
    // Two workers load and store a word, which is then loaded, stored as a digit and written.
    Row {
        log: &LOST_UPDATE_LOG,
        accesses: &[
            ((0, 15), Reads, Some((WORD, 4))),
            ((0, 17), Writes, Some((NEXT, 1))),
            ((0, 21), Reads, Some((NEXT, 1))),
            ((1, 2), Reads, Some((WORD, 4))),
            ((1, 4), Writes, Some((WORD, 4))),
            ((2, 2), Reads, Some((WORD, 4))),
            ((2, 4), Writes, Some((WORD, 4))),
        ],
        ordered: &[(0, 15), (1, 2), (1, 4), (2, 2), (2, 4)],
        pairs: 4,
        seen: &[((0, 21), (NEXT, 1), Some((0, 17)))],
    },
    // The same under a lock, which thread 1 takes first.
    Row {
        log: &LOCKED_LOG,
        accesses: &[
            ((0, 15), Reads, Some((WORD, 4))),
            ((0, 17), Writes, Some((NEXT, 1))),
            ((0, 21), Reads, Some((NEXT, 1))),
            ((1, 5), Reads, Some((WORD, 4))),
            ((1, 7), Writes, Some((WORD, 4))),
            ((2, 5), Reads, Some((WORD, 4))),
            ((2, 7), Writes, Some((WORD, 4))),
        ],
        ordered: &[],
        pairs: 0,
        seen: &[
            ((0, 15), (WORD, 4), Some((2, 7))),
            ((0, 21), (NEXT, 1), Some((0, 17))),
            ((1, 5), (WORD, 4), None),
            ((2, 5), (WORD, 4), Some((1, 7))),
        ],
    },
    // The same by load-reserved and store-conditional.
    Row {
        log: &STORE_CONDITIONAL_PAIRS_LOG,
        accesses: &[
            ((0, 15), Reads, Some((WORD, 4))),
            ((0, 17), Writes, Some((NEXT, 1))),
            ((0, 21), Reads, Some((NEXT, 1))),
            ((1, 2), Reads, Some((WORD, 4))),
            ((1, 4), Stores(2), Some((WORD, 4))),
            ((2, 2), Reads, Some((WORD, 4))),
            ((2, 4), Stores(2), Some((WORD, 4))),
        ],
        ordered: &[(0, 15), (1, 2), (1, 4), (2, 2), (2, 4)],
        pairs: 4,
        seen: &[((0, 21), (NEXT, 1), Some((0, 17)))],
    },
    // Two workers store bytes of a word, which is loaded while they may still run.
    Row {
        log: &BYTES_MERGE_LOG,
        accesses: &[
            ((0, 10), Reads, Some((WORD, 4))),
            ((0, 11), Writes, Some((NEXT, 4))),
            ((0, 15), Reads, Some((NEXT, 4))),
            ((1, 4), Writes, Some((WORD, 1))),
            ((2, 4), Writes, Some((WORD + 1, 1))),
        ],
        ordered: &[(0, 10), (1, 4), (2, 4)],
        pairs: 3,
        seen: &[
            ((0, 10), (WORD + 2, 2), None),
            ((0, 15), (NEXT, 4), Some((0, 11))),
        ],
    },
];

fn worked() -> &'static [Row] {
    &WORKED
}

/// Lists of accesses of the log of a lost update.
static SMALL: [Row; 11] = [
    // A write that another one hides.
    Row {
        log: &LOST_UPDATE_LOG,
        accesses: &[
            ((0, 1), Writes, Some((WORD, 4))),
            ((0, 3), Writes, Some((WORD, 4))),
            ((1, 2), Reads, Some((WORD, 4))),
        ],
        ordered: &[],
        pairs: 0,
        seen: &[((1, 2), (WORD, 4), Some((0, 3)))],
    },
    // A write after the read.
    Row {
        log: &LOST_UPDATE_LOG,
        accesses: &[
            ((1, 4), Writes, Some((WORD, 4))),
            ((0, 3), Reads, Some((WORD, 4))),
        ],
        ordered: &[],
        pairs: 0,
        seen: &[((0, 3), (WORD, 4), None)],
    },
    // Two writes of one thread.
    Row {
        log: &LOST_UPDATE_LOG,
        accesses: &[
            ((2, 2), Writes, Some((WORD, 4))),
            ((2, 4), Writes, Some((WORD, 2))),
            ((0, 15), Reads, Some((WORD, 4))),
        ],
        ordered: &[],
        pairs: 0,
        seen: &[
            ((0, 15), (WORD, 2), Some((2, 4))),
            ((0, 15), (WORD + 2, 2), Some((2, 2))),
        ],
    },
    // Bytes of one word from two writers.
    Row {
        log: &LOST_UPDATE_LOG,
        accesses: &[
            ((0, 15), Reads, Some((WORD, 4))),
            ((1, 4), Writes, Some((WORD, 1))),
            ((2, 4), Writes, Some((WORD + 1, 1))),
        ],
        ordered: &[],
        pairs: 0,
        seen: &[
            ((0, 15), (WORD, 1), Some((1, 4))),
            ((0, 15), (WORD + 1, 1), Some((2, 4))),
            ((0, 15), (WORD + 2, 2), None),
        ],
    },
    // A reader without a place: each write is listed, and no other reader.
    Row {
        log: &LOST_UPDATE_LOG,
        accesses: &[
            ((0, 15), Reads, None),
            ((1, 2), Reads, Some((WORD, 4))),
            ((1, 4), Writes, Some((NEXT, 4))),
            ((2, 2), Reads, Some((NEXT + 4, 1))),
        ],
        ordered: &[(0, 15), (1, 4)],
        pairs: 0,
        seen: &[((1, 2), (WORD, 4), None), ((2, 2), (NEXT + 4, 1), None)],
    },
    // A writer without a place may write what is read.
    Row {
        log: &LOST_UPDATE_LOG,
        accesses: &[
            ((0, 15), Reads, Some((WORD, 1))),
            ((1, 2), Reads, Some((WORD, 1))),
            ((2, 4), Writes, None),
        ],
        ordered: &[(0, 15), (1, 2), (2, 4)],
        pairs: 1,
        seen: &[],
    },
    // A store to one byte of the word of a store-conditional, open with it alone.
    Row {
        log: &LOST_UPDATE_LOG,
        accesses: &[
            ((0, 3), Reads, Some((WORD, 4))),
            ((0, 6), Stores(3), Some((WORD, 4))),
            ((1, 4), Writes, Some((WORD + 3, 1))),
            ((2, 4), Writes, Some((NEXT, 1))),
        ],
        ordered: &[(0, 3), (0, 6), (1, 4)],
        pairs: 1,
        seen: &[((0, 3), (WORD, 4), None)],
    },
    // A store-conditional with a fixed outcome may still write or not.
    Row {
        log: &LOST_UPDATE_LOG,
        accesses: &[
            ((1, 2), Reads, Some((WORD, 4))),
            ((1, 4), Stores(2), Some((WORD, 4))),
            ((0, 15), Reads, Some((WORD, 4))),
        ],
        ordered: &[(1, 4), (0, 15)],
        pairs: 0,
        seen: &[((1, 2), (WORD, 4), None)],
    },
    // Accesses that read and write.
    Row {
        log: &LOST_UPDATE_LOG,
        accesses: &[
            ((1, 2), Both, Some((WORD, 4))),
            ((1, 4), Both, Some((WORD, 4))),
            ((2, 4), Both, Some((NEXT, 4))),
        ],
        ordered: &[],
        pairs: 0,
        seen: &[
            ((1, 2), (WORD, 4), None),
            ((1, 4), (WORD, 4), Some((1, 2))),
            ((2, 4), (NEXT, 4), None),
        ],
    },
    // Places that go round at the end of memory.
    Row {
        log: &LOST_UPDATE_LOG,
        accesses: &[
            ((1, 2), Reads, Some((0xffff_fffe, 4))),
            ((2, 4), Writes, Some((0xffff_ffff, 2))),
        ],
        ordered: &[(1, 2), (2, 4)],
        pairs: 1,
        seen: &[((1, 2), (0xffff_fffe, 1), None), ((1, 2), (1, 1), None)],
    },
    // No accesses.
    Row {
        log: &LOST_UPDATE_LOG,
        accesses: &[],
        ordered: &[],
        pairs: 0,
        seen: &[],
    },
];

fn small() -> &'static [Row] {
    &SMALL
}

/// The number of open pairs of steps.
fn pairs_of(alloc: Global, order: &Order, steps: &[Pos]) -> Result<usize, Memory> {
    let arena = Bump::new(alloc);
    let mut clauses = ClauseStore::new(alloc, &arena);
    let vars = OrderVars::new(alloc, order, steps, &mut clauses)?;
    Ok(vars.pairs().len())
}

/// Whether the lists are those of a row.
fn has_lists(alloc: Global, set: &RaceSet, row: &Row) -> Result<bool, Fail> {
    let ordered = steps_of(alloc, row.ordered)?;
    let seen = seen_of(alloc, row.seen)?;
    Ok(has(&set.ordered, ordered.as_slice()) && has(&set.seen, seen.as_slice()))
}

/// Whether a row's lists are found.
fn is_found(alloc: Global, row: &Row) -> Result<bool, Fail> {
    let order = order_of(alloc, row.log)?;
    let shapes = shapes_of(alloc, row.accesses)?;
    let set = open_accesses(alloc, &order, shapes.as_slice())?;
    let pairs = pairs_of(alloc, &order, set.ordered.as_slice())?;
    Ok(pairs == row.pairs && has_lists(alloc, &set, row)?)
}

/// The number of the first row whose lists aren't found.
fn first_wrong(alloc: Global, rows: &[Row]) -> Result<Option<usize>, Fail> {
    for (number, row) in rows.iter().enumerate() {
        if !is_found(alloc, row)? {
            return Ok(Some(number));
        }
    }
    Ok(None)
}

#[test]
fn accesses_of_worked_logs_are_listed_where_they_race(rt: HostRuntime) -> Result<(), Fail> {
    assert_eq!(rt; first_wrong(rt.alloc(), worked())?, None);
    Ok(())
}

#[test]
fn what_each_order_shows_is_seen(rt: HostRuntime) -> Result<(), Fail> {
    assert_eq!(rt; first_wrong(rt.alloc(), small())?, None);
    Ok(())
}
