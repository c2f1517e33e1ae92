//! Lists of steps of one guest.

use guest_runs::guests::{Runs, guests};
use guest_runs::loaded::{Loaded, load};
use guest_runs::no_run::NoRun;
use guest_runs::runs::{places, schedule_of};
use guest_runs::walks::holds;
use std::alloc::Global;
use std::test::Fail;

/// Lists of steps of the second guest, and whether the walk along each tells that it holds.
static LISTS: [(Runs, Option<bool>); 6] = [
    (&[(0, 8), (1, 7), (2, 7), (0, 17)], Some(true)),
    (&[(0, 8), (2, 7), (1, 7), (0, 17)], Some(true)),
    // A worker before its spawn, a join before the end, a step too few, and one too many.
    (&[(1, 7), (0, 8), (2, 7), (0, 17)], None),
    (&[(0, 11), (1, 7), (2, 7), (0, 14)], None),
    (&[(0, 8), (1, 7), (2, 7), (0, 16)], None),
    (&[(0, 8), (1, 7), (2, 7), (0, 18)], None),
];

fn lists() -> &'static [(Runs, Option<bool>)] {
    &LISTS
}

/// Whether the walk along the steps of these runs holds with what the guest's run hears.
fn holds_along(alloc: Global, loaded: &Loaded, runs: Runs) -> Result<Option<bool>, NoRun> {
    let schedule = schedule_of(alloc, runs)?;
    let steps = places(alloc, schedule.as_slice())?;
    Ok(holds(alloc, loaded, loaded.ran.rows.as_slice(), steps.as_slice())?)
}

#[test]
fn lists_of_steps_have_one_answer(rt: HostRuntime) -> Result<(), Fail> {
    let guest = guests().get(1).ok_or("a guest")?;
    let loaded = load(rt.alloc(), guest)?;
    for (runs, wanted) in lists() {
        let found = holds_along(rt.alloc(), &loaded, runs)?;
        assert_eq!(rt; found, *wanted, "{runs:?}");
    }
    Ok(())
}
