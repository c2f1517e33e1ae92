ghost use Rattle.std.specs.Prelude.{◌≡◌, length};

use crate::rivals::rivals_of;
use bumpalo::Bump;
use clause_store::store::ClauseStore;
use happens_before::order::Order;
use odr_list::list::List;
use odr_log::log::{Call, CallRec, End, Log, Pos, ThreadLog};
use order_clauses::order_lit::OrderLit;
use order_vars::order_vars::OrderVars;
use race_set::shape::{AccessShape, Span};
use std::alloc::Global;
use std::test::Fail;

const RESERVED: Pos = Pos { thread: 1, step: 0 };

const CONDITIONAL: Pos = Pos { thread: 1, step: 2 };

const BYTE: Pos = Pos { thread: 0, step: 3 };

const UNKNOWN: Pos = Pos { thread: 0, step: 5 };

const WORD: Option<Span> = Some(Span { first: 8, len: 4 });

/// Thread 0 stores the word at 8 before it spawns thread 1, and then a byte of it, the next word, and something at an unknown
/// address. Thread 1 reserves the word, stores it, and then stores it if it still has the reservation.
const SHAPES: [AccessShape; 7] = [
    AccessShape {
        pos: Pos { thread: 0, step: 0 },
        reads: false,
        writes: true,
        place: WORD,
        link: None,
    },
    AccessShape {
        pos: BYTE,
        reads: false,
        writes: true,
        place: Some(Span { first: 10, len: 1 }),
        link: None,
    },
    AccessShape {
        pos: Pos { thread: 0, step: 4 },
        reads: false,
        writes: true,
        place: Some(Span { first: 12, len: 4 }),
        link: None,
    },
    AccessShape {
        pos: UNKNOWN,
        reads: false,
        writes: true,
        place: None,
        link: None,
    },
    AccessShape {
        pos: RESERVED,
        reads: true,
        writes: false,
        place: WORD,
        link: None,
    },
    AccessShape {
        pos: Pos { thread: 1, step: 1 },
        reads: false,
        writes: true,
        place: WORD,
        link: None,
    },
    AccessShape {
        pos: CONDITIONAL,
        reads: false,
        writes: true,
        place: WORD,
        link: Some(RESERVED),
    },
];

/// The places of the accesses among the chosen steps.
const PLACES: [Option<usize>; 7] = [None, Some(0), None, Some(1), Some(2), None, Some(3)];

/// The number of a rival and the literals that say that it stands after the load-reserved and before the store-conditional, each by
/// its variable and whether it is positive.
type Found = (usize, Option<(u64, bool)>, Option<(u64, bool)>);

const RIVALS: [Found; 2] = [
    (1, Some((0, false)), Some((1, true))),
    (3, Some((2, false)), Some((3, true))),
];

/// Thread 0 spawns thread 1 at its second step; both go on until the run is cut off.
fn log_of_a_spawn(alloc: Global) -> Result<Log, Fail> {
    let mut threads = List::new(alloc);
    for _ in 0..2 {
        threads.push(ThreadLog {
            steps: 6,
            path: List::new(alloc),
        })?;
    }
    let mut calls = List::new(alloc);
    let call = Call::Spawn {
        entry: 0x10064,
        child: Some(1),
    };
    calls.push(CallRec {
        tid: 0,
        at: 1,
        call,
    })?;
    Ok(Log {
        version: 1,
        threads,
        calls,
        end: End::Cut,
    })
}

fn literal_of(condition: OrderLit) -> Option<(u64, bool)> {
    match condition {
        OrderLit::Is(lit) => Some((lit.var, lit.positive)),
        _ => None,
    }
}

fn found_by(alloc: Global, order: &Order, vars: &OrderVars) -> Result<List<Found>, Fail>
    requires { length vars.now.chosen ≡ 4 }
{
    let rivals = rivals_of(alloc, order, &SHAPES, &PLACES, vars, 4, 6)?;
    let mut found = List::new(alloc);
    for rival in rivals.as_slice() {
        found.push((
            rival.access,
            literal_of(rival.after),
            literal_of(rival.before),
        ))?;
    }
    Ok(found)
}

#[test]
fn writes_of_another_thread_are_rivals(rt: HostRuntime) -> Result<(), Fail> {
    let alloc = rt.alloc();
    let log = log_of_a_spawn(alloc)?;
    let Some(order) = Order::new(alloc, &log)? else {
        return Err("the calls fit".into());
    };
    let arena = Bump::new(alloc);
    let mut clauses = ClauseStore::new(alloc, &arena);
    let chosen = [BYTE, UNKNOWN, RESERVED, CONDITIONAL];
    let vars = OrderVars::new(alloc, &order, &chosen, &mut clauses)?;
    let found = found_by(alloc, &order, &vars)?;
    assert_eq!(rt; found.as_slice(), RIVALS.as_slice());
    Ok(())
}
