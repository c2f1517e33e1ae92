use crate::source::{Source, source_of};
use crate::spots::spots_of;
use bv_terms::node::TermId;
use happens_before::order::Order;
use odr_list::list::List;
use odr_log::log::{Call, CallRec, End, Log, Pos, ThreadLog};
use race_set::reading::Seen;
use race_set::shape::{AccessShape, Span};
use std::alloc::Global;
use std::test::Fail;
use thread_terms::access::Access;

const ZERO: TermId = TermId { number: 0 };

/// The thread and step of each access, whether it writes, and where: thread 0 stores a half at 6 and loads the word at 4, thread 1
/// stores the word at 4, and one at an unknown address.
const SHAPES: [AccessShape; 4] = [
    AccessShape {
        pos: Pos { thread: 0, step: 1 },
        reads: false,
        writes: true,
        place: Some(Span { first: 6, len: 2 }),
        link: None,
    },
    AccessShape {
        pos: Pos { thread: 0, step: 2 },
        reads: true,
        writes: false,
        place: Some(Span { first: 4, len: 4 }),
        link: None,
    },
    AccessShape {
        pos: Pos { thread: 1, step: 0 },
        reads: false,
        writes: true,
        place: Some(Span { first: 4, len: 4 }),
        link: None,
    },
    AccessShape {
        pos: Pos { thread: 1, step: 1 },
        reads: false,
        writes: true,
        place: None,
        link: None,
    },
];

const WRITES: [usize; 4] = [2, 0, 4, 2];

const PLACES: [Option<usize>; 4] = [Some(0), Some(1), Some(2), Some(3)];

/// The accesses and bytes of the spots of each byte of the load.
const SPOTS: [&[(usize, u32)]; 4] = [
    &[(2, 0), (3, 0), (3, 1)],
    &[(2, 1), (3, 0), (3, 1)],
    &[(0, 0), (2, 2), (3, 0), (3, 1)],
    &[(0, 1), (2, 3), (3, 0), (3, 1)],
];

/// Thread 0 spawns thread 1 at its first step; both go on until the run is cut off.
fn two_threads(alloc: Global) -> Result<Log, Fail> {
    let mut threads = List::new(alloc);
    for _ in 0..2 {
        threads.push(ThreadLog {
            steps: 3,
            path: List::new(alloc),
        })?;
    }
    let mut calls = List::new(alloc);
    let call = Call::Spawn {
        entry: 0x10064,
        child: Some(1),
    };
    calls.push(CallRec {
        tid: 0,
        at: 0,
        call,
    })?;
    Ok(Log {
        version: 1,
        threads,
        calls,
        end: End::Cut,
    })
}

fn access_of(alloc: Global, shape: &AccessShape, count: usize) -> Result<Access, Fail> {
    let mut writes = List::new(alloc);
    for _ in 0..count {
        writes.push(ZERO)?;
    }
    Ok(Access {
        pos: shape.pos,
        address: ZERO,
        guard: ZERO,
        reads: List::new(alloc),
        writes,
        link: None,
    })
}

fn accesses(alloc: Global) -> Result<List<Access>, Fail> {
    let mut accesses = List::new(alloc);
    for x in 0..SHAPES.len() {
        accesses.push(access_of(alloc, &SHAPES[x], WRITES[x])?)?;
    }
    Ok(accesses)
}

fn spots_at(
    alloc: Global,
    order: &Order,
    accesses: &[Access],
    index: u32,
) -> Result<List<(usize, u32)>, Fail> {
    if accesses.len() != 4 {
        return Err("there is an access for each shape".into());
    }
    let spots = spots_of(alloc, order, accesses, &SHAPES, &PLACES, 1, index)?;
    let mut found = List::new(alloc);
    for spot in spots.as_slice() {
        found.push((spot.access, spot.byte))?;
    }
    Ok(found)
}

#[test]
fn each_byte_has_its_spots(rt: HostRuntime) -> Result<(), Fail> {
    let alloc = rt.alloc();
    let log = two_threads(alloc)?;
    let Some(order) = Order::new(alloc, &log)? else {
        return Err("the calls fit".into());
    };
    let accesses = accesses(alloc)?;
    for index in 0..4 {
        let found = spots_at(alloc, &order, accesses.as_slice(), index as u32)?;
        assert_eq!(rt; found.as_slice(), SPOTS[index]);
    }
    Ok(())
}

/// What is told of bytes 4, 6 and 7, and nothing of byte 5.
const SEEN: [Seen; 3] = [
    Seen {
        reader: Pos { thread: 0, step: 2 },
        byte: 4,
        from: None,
    },
    Seen {
        reader: Pos { thread: 0, step: 2 },
        byte: 6,
        from: Some(Pos { thread: 0, step: 1 }),
    },
    Seen {
        reader: Pos { thread: 0, step: 2 },
        byte: 7,
        from: Some(Pos { thread: 1, step: 0 }),
    },
];

const SOURCES: [Source; 4] = [
    Source::Initial,
    Source::Open,
    Source::Written { access: 0, byte: 0 },
    Source::Written { access: 2, byte: 3 },
];

#[test]
fn each_byte_has_its_source(rt: HostRuntime) -> Result<(), Fail> {
    for index in 0..4 {
        let source = source_of(&SEEN, &SHAPES, 1, index as u32);
        assert!(rt; source == SOURCES[index], "byte {index}");
    }
    Ok(())
}
