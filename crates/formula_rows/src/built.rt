//! Worked logs that some schedule has, each with its formula.

use bumpalo::Bump;
use bv_rewrite::rewrite::NoRules;
use guest_runs::guests::{Guest, guests};
use guest_runs::logged::read_guest;
use guest_runs::no_run::NoRun;
use read_from::build::build;
use std::alloc::Global;
use std::test::Fail;

/// Whether a guest's log has a formula with an ordering.
fn is_built(alloc: Global, guest: &Guest) -> Result<bool, NoRun> {
    let logged = read_guest(alloc, guest)?;
    let arena = Bump::new(alloc);
    match build(alloc, &arena, &logged.image, &logged.log, &NoRules) {
        Ok(formula) => Ok(formula.ordering.is_some()),
        Err(_) => Ok(false),
    }
}

#[test]
fn worked_logs_have_formulas(rt: HostRuntime) -> Result<(), Fail> {
    let alloc = rt.alloc();
    for (number, guest) in guests().iter().enumerate() {
        let built = is_built(alloc, guest)?;
        assert!(rt; built, "guest {number}");
    }
    Ok(())
}
