//! Symbolic paths of the worked logs, with what the runs of their schedules hear.

ghost use Rattle.std.specs.Prelude.{◌<◌, length, IfOk};
ghost use Rattle.odr_log.specs.Grammar.{IsValid};
ghost use Rattle.trace_path.specs.Traced.{IsTraced};

use crate::terms::{Values, evaluate};
use bumpalo::Bump;
use bv_rewrite::rewrite::NoRules;
use bv_terms::node::{Node, TermId};
use bv_terms::pool::TermPool;
use guest_runs::changes::change;
use guest_runs::guests::{Change, Guest, guests};
use guest_runs::loaded::{Loaded, load};
use guest_runs::logged::Logged;
use guest_runs::no_run::NoRun;
use guest_runs::walks::holds;
use happens_before::order::Order;
use odr_list::list::List;
use path_exec::Paths;
use plain_walk::given::Supplied;
use std::alloc::Global;
use std::test::Fail;

/// Symbolic paths, and a term behind all of theirs.
#[derive(Drop)]
pub struct Followed {
    pub paths: Paths,
    pub last: TermId,
}

/// The symbolic paths of a guest's log.
pub fn paths_of(alloc: Global, pool: &mut TermPool<'_>, logged: &Logged) -> Result<Followed, NoRun>
    requires valid { IsValid logged.now.log }
    requires traced { IsTraced logged.now.image logged.now.log logged.now.traces }
    ensures { IfOk result (λ followed. followed.last.number < length pool.new) }
{
    let Some(_order) = Order::new(alloc, &logged.log)? else {
        return Err(NoRun::Log);
    };
    let paths = Paths::run(
        alloc,
        pool,
        &NoRules,
        &logged.image,
        &logged.traces,
        &logged.log,
    )?;
    let last = pool.add(Node::Var {
        width: 2,
        number: 0,
    })?;
    Ok(Followed { paths, last })
}

/// Whether each constraint comes to 1.
pub fn are_met(values: &Values, constraints: &[TermId]) -> bool {
    constraints.iter().all(|id| values.of(*id) == Some(1))
}

/// Whether the constraints are met where steps are given this, none where a variable is of no step.
pub fn is_met(
    alloc: Global,
    pool: &TermPool<'_>,
    followed: &Followed,
    rows: &[List<Supplied>],
) -> Result<Option<bool>, NoRun>
    requires { followed.now.last.number < length pool.now }
{
    let Some(values) = evaluate(alloc, pool, followed.last, rows)? else {
        return Ok(None);
    };
    Ok(Some(are_met(&values, followed.paths.constraints.as_slice())))
}

/// With a change the constraints are met exactly where the walk holds.
fn follows_change(
    alloc: Global,
    loaded: &Loaded,
    pool: &TermPool<'_>,
    followed: &Followed,
    tried: Change,
) -> Result<bool, NoRun>
    requires { followed.now.last.number < length pool.now }
{
    let (thread, step, part, _held) = tried;
    let rows = change(alloc, loaded.ran.rows.as_slice(), (thread, step, part))?;
    let held = holds(alloc, loaded, rows.as_slice(), loaded.ran.steps.as_slice())?;
    Ok(is_met(alloc, pool, followed, rows.as_slice())? == held)
}

/// The number of the first change with which constraints and walk differ.
fn missed_change(
    alloc: Global,
    loaded: &Loaded,
    pool: &TermPool<'_>,
    followed: &Followed,
    changes: &[Change],
) -> Result<Option<usize>, NoRun>
    requires { followed.now.last.number < length pool.now }
{
    for (number, change) in changes.iter().enumerate() {
        if !follows_change(alloc, loaded, pool, followed, *change)? {
            return Ok(Some(number));
        }
    }
    Ok(None)
}

/// What of a guest is not as told.
#[derive(Clone, Copy, Debug, PartialEq, Eq)]
enum Missed {
    Nothing,
    Run,
    Change(usize),
}

/// A guest's run meets the constraints, and so does what is changed of it where the walk holds, and only there.
fn first_missed(alloc: Global, guest: &Guest) -> Result<Missed, NoRun> {
    let loaded = load(alloc, guest)?;
    let arena = Bump::new(alloc);
    let mut pool = TermPool::new(alloc, &arena);
    let followed = paths_of(alloc, &mut pool, &loaded.logged)?;
    if is_met(alloc, &pool, &followed, loaded.ran.rows.as_slice())? != Some(true) {
        return Ok(Missed::Run);
    }
    match missed_change(alloc, &loaded, &pool, &followed, guest.changes)? {
        Some(number) => Ok(Missed::Change(number)),
        None => Ok(Missed::Nothing),
    }
}

#[test]
fn constraints_are_met_where_the_walk_holds(rt: HostRuntime) -> Result<(), Fail> {
    for (number, guest) in guests().iter().enumerate() {
        let missed = first_missed(rt.alloc(), guest)?;
        assert_eq!(rt; missed, Missed::Nothing, "guest {number}");
    }
    Ok(())
}
