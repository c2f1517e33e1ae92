ghost use Rattle.std.specs.Prelude.{◌≡◌, ◌<◌, length};

use crate::order_vars::OrderVars;
use bumpalo::Bump;
use clause_store::store::ClauseStore;
use happens_before::order::Order;
use odr_list::list::List;
use odr_log::log::{Call, CallRec, End, Log, Pos, ThreadLog};
use order_clauses::order_lit::OrderLit;
use std::alloc::Global;
use std::test::Fail;

const FIRST: Pos = Pos { thread: 0, step: 0 };

const CALL: Pos = Pos { thread: 0, step: 1 };

const EARLY: Pos = Pos { thread: 0, step: 3 };

const LATE: Pos = Pos { thread: 0, step: 5 };

const CHILD: Pos = Pos { thread: 1, step: 1 };

const CHILD_NEXT: Pos = Pos { thread: 1, step: 2 };

fn steps_of(alloc: Global, steps: u32) -> ThreadLog {
    ThreadLog {
        steps,
        path: List::new(alloc),
    }
}

/// Thread 0 spawns thread 1 at its second step; both go on until the run is cut off.
fn log_of_a_spawn(alloc: Global) -> Result<Log, Fail> {
    let mut threads = List::new(alloc);
    threads.push(steps_of(alloc, 6))?;
    threads.push(steps_of(alloc, 4))?;
    let mut calls = List::new(alloc);
    let call = Call::Spawn {
        entry: 0x10064,
        child: Some(1),
    };
    calls.push(CallRec {
        tid: 0,
        at: 1,
        call,
    })?;
    Ok(Log {
        version: 1,
        threads,
        calls,
        end: End::Cut,
    })
}

/// The literal of the steps at two places.
fn literal(vars: &OrderVars, i: usize, j: usize) -> OrderLit
    requires i_in { i < length vars.now.chosen }
    requires j_in { j < length vars.now.chosen }
{
    vars.lit(vars.step(i), vars.step(j))
}

/// The literals of some places: of a step before the spawn and one of the child, of these the other way round, and of
/// two that race.
fn three_literals(vars: &OrderVars) -> (OrderLit, OrderLit, OrderLit)
    requires { length vars.now.chosen ≡ 5 }
{
    (
        literal(vars, 0, 3),
        literal(vars, 4, 0),
        literal(vars, 1, 3),
    )
}

/// What is told of the variables: the number of steps, whether there are none, the first variable, the pairs and the
/// places of the table.
fn told_of(vars: &OrderVars) -> (usize, bool, u64, usize, usize) {
    (
        vars.len(),
        vars.is_empty(),
        vars.first(),
        vars.pairs().len(),
        vars.table().count,
    )
}

#[test]
fn racing_steps_have_variables_and_others_have_none(rt: HostRuntime) -> Result<(), Fail> {
    let alloc = rt.alloc();
    let log = log_of_a_spawn(alloc)?;
    let Some(order) = Order::new(alloc, &log)? else {
        return Err("the calls fit".into());
    };
    let arena = Bump::new(alloc);
    let mut clauses = ClauseStore::new(alloc, &arena);
    let chosen = [FIRST, EARLY, LATE, CHILD, CHILD_NEXT];
    let vars = OrderVars::new(alloc, &order, &chosen, &mut clauses)?;
    assert_eq!(rt; (clauses.vars(), clauses.len()), (4, 4));
    assert_eq!(rt; told_of(&vars), (5, false, 0, 4, 5));
    assert_eq!(rt; (vars.find(LATE), vars.find(CALL)), (Some(2), None));
    let literals = three_literals(&vars);
    assert!(rt;
        matches!(
            literals,
            (OrderLit::Always, OrderLit::Never, OrderLit::Is(_))
        )
    );
    Ok(())
}
