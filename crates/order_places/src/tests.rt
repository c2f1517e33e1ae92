use crate::places::places_of;
use bumpalo::Bump;
use bv_terms::node::TermId;
use clause_store::store::ClauseStore;
use happens_before::order::Order;
use odr_list::list::List;
use odr_log::log::{End, Log, Pos, ThreadLog};
use order_vars::order_vars::OrderVars;
use std::alloc::Global;
use std::test::Fail;
use thread_terms::access::Access;

const ZERO: TermId = TermId { number: 0 };

const CHOSEN: [Pos; 3] = [
    Pos { thread: 0, step: 4 },
    Pos { thread: 0, step: 1 },
    Pos { thread: 0, step: 2 },
];

/// Steps of thread 0, each with the place of its access.
const ROWS: [(u32, Option<usize>); 5] = [
    (0, None),
    (1, Some(1)),
    (2, Some(2)),
    (3, None),
    (4, Some(0)),
];

/// One thread of six steps, cut off.
fn one_thread(alloc: Global) -> Result<Log, Fail> {
    let mut threads = List::new(alloc);
    threads.push(ThreadLog {
        steps: 6,
        path: List::new(alloc),
    })?;
    Ok(Log {
        version: 1,
        threads,
        calls: List::new(alloc),
        end: End::Cut,
    })
}

fn access_at(alloc: Global, step: u32) -> Access {
    Access {
        pos: Pos { thread: 0, step },
        address: ZERO,
        guard: ZERO,
        reads: List::new(alloc),
        writes: List::new(alloc),
        link: None,
    }
}

#[test]
fn each_access_has_the_place_of_its_step(rt: HostRuntime) -> Result<(), Fail> {
    let alloc = rt.alloc();
    let log = one_thread(alloc)?;
    let Some(order) = Order::new(alloc, &log)? else {
        return Err("no call is made".into());
    };
    let arena = Bump::new(alloc);
    let mut clauses = ClauseStore::new(alloc, &arena);
    let vars = OrderVars::new(alloc, &order, &CHOSEN, &mut clauses)?;
    let mut accesses = List::new(alloc);
    let mut wanted = List::new(alloc);
    for (step, place) in ROWS {
        accesses.push(access_at(alloc, step))?;
        wanted.push(place)?;
    }
    let places = places_of(alloc, &vars, accesses.as_slice())?;
    assert_eq!(rt; places.as_slice(), wanted.as_slice());
    Ok(())
}
