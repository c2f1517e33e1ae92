//! Logs that some schedule has, with the bytes and outcomes of that schedule's run.

use guest_runs::changes::change;
use guest_runs::guests::{Change, Guest, Other, guests};
use guest_runs::loaded::{Loaded, load};
use guest_runs::no_run::NoRun;
use guest_runs::runs::schedule_of;
use guest_runs::walks::{fits_schedule, holds};
use std::alloc::Global;
use std::test::Fail;

/// The walk with what a guest's run hears holds, and fits its schedule.
fn is_explained(alloc: Global, loaded: &Loaded) -> Result<bool, NoRun> {
    let rows = loaded.ran.rows.as_slice();
    let held = holds(alloc, loaded, rows, loaded.ran.steps.as_slice())?;
    let fit = fits_schedule(alloc, loaded, rows, loaded.schedule.as_slice())?;
    Ok(held == Some(true) && fit)
}

/// With one change the walk doesn't hold and fit; whether it holds is told.
fn meets_change(
    alloc: Global,
    loaded: &Loaded,
    (thread, step, part, held): Change,
) -> Result<bool, NoRun> {
    let rows = change(alloc, loaded.ran.rows.as_slice(), (thread, step, part))?;
    let found = holds(alloc, loaded, rows.as_slice(), loaded.ran.steps.as_slice())?;
    let fit = fits_schedule(alloc, loaded, rows.as_slice(), loaded.schedule.as_slice())?;
    Ok(found == Some(held) && !(held && fit))
}

/// Whether what a guest's run hears fits another schedule is as told.
fn meets_other(alloc: Global, loaded: &Loaded, (runs, fit): Other) -> Result<bool, NoRun> {
    let schedule = schedule_of(alloc, runs)?;
    let rows = loaded.ran.rows.as_slice();
    Ok(fits_schedule(alloc, loaded, rows, schedule.as_slice())? == fit)
}

/// The number of the first change that is not met.
fn missed_change(
    alloc: Global,
    loaded: &Loaded,
    changes: &[Change],
) -> Result<Option<usize>, NoRun> {
    for (number, change) in changes.iter().enumerate() {
        if !meets_change(alloc, loaded, *change)? {
            return Ok(Some(number));
        }
    }
    Ok(None)
}

/// The number of the first other schedule that is not met.
fn missed_other(alloc: Global, loaded: &Loaded, others: &[Other]) -> Result<Option<usize>, NoRun> {
    for (number, other) in others.iter().enumerate() {
        if !meets_other(alloc, loaded, *other)? {
            return Ok(Some(number));
        }
    }
    Ok(None)
}

/// What of a guest is not as told.
#[derive(Clone, Copy, Debug, PartialEq, Eq)]
enum Missed {
    Nothing,
    Run,
    Change(usize),
    Other(usize),
}

fn first_missed(alloc: Global, guest: &Guest) -> Result<Missed, NoRun> {
    let loaded = load(alloc, guest)?;
    if !is_explained(alloc, &loaded)? {
        return Ok(Missed::Run);
    }
    if let Some(number) = missed_change(alloc, &loaded, guest.changes)? {
        return Ok(Missed::Change(number));
    }
    match missed_other(alloc, &loaded, guest.others)? {
        Some(number) => Ok(Missed::Other(number)),
        None => Ok(Missed::Nothing),
    }
}

#[test]
fn runs_explain_their_logs(rt: HostRuntime) -> Result<(), Fail> {
    for (number, guest) in guests().iter().enumerate() {
        let missed = first_missed(rt.alloc(), guest)?;
        assert_eq!(rt; missed, Missed::Nothing, "guest {number}");
    }
    Ok(())
}
