//! The walk along the steps of a guest's run.

use crate::loaded::Loaded;
use crate::no_run::NoRun;
use odr_list::list::List;
use odr_list::memory::Memory;
use odr_log::log::Pos;
use plain_walk::given::Supplied;
use plain_walk::table::Table;
use plain_walk::{fits, is_guided, walk_along};
use std::alloc::Global;

/// Whether the walk along these steps holds with what is given, none where it can't tell.
///
/// # Errors
///
/// `Memory` alone.
pub fn holds(
    alloc: Global,
    loaded: &Loaded,
    rows: &[List<Supplied>],
    steps: &[Pos],
) -> Result<Option<bool>, Memory> {
    is_guided(
        alloc,
        &loaded.logged.image,
        loaded.logged.log.calls.as_slice(),
        loaded.notes.as_slice(),
        rows,
        steps,
    )
}

/// The walk along the steps of the run, with what is given.
///
/// # Errors
///
/// `NoRun`, where there is none.
pub fn walked(alloc: Global, loaded: &Loaded, rows: &[List<Supplied>]) -> Result<Table, NoRun> {
    let table = walk_along(
        alloc,
        &loaded.logged.image,
        loaded.logged.log.calls.as_slice(),
        loaded.notes.as_slice(),
        rows,
        loaded.ran.steps.as_slice(),
    )?;
    match table {
        Some(table) => Ok(table),
        None => Err(NoRun::Walk),
    }
}

/// Whether what is given fits a schedule, where the walk is that with what the run heard.
///
/// # Errors
///
/// `NoRun`, where there is no walk, or the schedule is too long.
pub fn fits_schedule(
    alloc: Global,
    loaded: &Loaded,
    rows: &[List<Supplied>],
    schedule: &[u8],
) -> Result<bool, NoRun> {
    if schedule.len() > 1000 {
        return Err(NoRun::Schedule);
    }
    let table = walked(alloc, loaded, rows)?;
    Ok(fits(alloc, &loaded.logged.image, rows, &table, schedule)?)
}
