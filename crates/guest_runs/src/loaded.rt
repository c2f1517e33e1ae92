//! The run of a guest's schedule.

ghost use Rattle.std.specs.Prelude.{IfOk};
ghost use Rattle.odr_log.specs.Grammar.{IsValid};
ghost use Rattle.trace_path.specs.Traced.{IsTraced};

use crate::guests::Guest;
use crate::logged::{Logged, read_guest};
use crate::no_run::NoRun;
use crate::runs::{Ran, run, schedule_of};
use odr_list::list::List;
use plain_machine::run::first_difference;
use rv_model::state::Note;
use std::alloc::Global;
use walk_notes::notes_of_log;

/// A guest's log, what it notes of each step, and the run of a schedule that has it.
#[derive(Drop)]
pub struct Loaded {
    pub logged: Logged,
    pub notes: List<List<Note>>,
    pub schedule: Vec<u8>,
    pub ran: Ran,
}

fn notes_of(alloc: Global, logged: &Logged) -> Result<List<List<Note>>, NoRun>
    requires { IsTraced logged.now.image logged.now.log logged.now.traces }
{
    if logged.log.threads.len() > 8 {
        return Err(NoRun::Log);
    }
    Ok(notes_of_log(alloc, &logged.image, &logged.log, &logged.traces)?)
}

/// The run of a schedule that has the log.
fn run_of(alloc: Global, logged: &Logged, schedule: &[u8]) -> Result<Ran, NoRun> {
    if schedule.len() > 1000 {
        return Err(NoRun::Schedule);
    }
    match first_difference(alloc, &logged.image, &logged.log, schedule)? {
        None => run(alloc, &logged.image, &logged.log, schedule),
        Some(_place) => Err(NoRun::Schedule),
    }
}

/// A guest's log and run.
///
/// # Errors
///
/// `NoRun`, where the guest lacks one of them.
pub fn load(alloc: Global, guest: &Guest) -> Result<Loaded, NoRun>
    ensures valid { IfOk result (λ loaded. IsValid loaded.logged.log) }
    ensures traced { IfOk result (λ loaded. IsTraced loaded.logged.image loaded.logged.log loaded.logged.traces) }
{
    let logged = read_guest(alloc, guest)?;
    let notes = notes_of(alloc, &logged)?;
    let schedule = schedule_of(alloc, guest.runs)?;
    let ran = run_of(alloc, &logged, schedule.as_slice())?;
    Ok(Loaded {
        logged,
        notes,
        schedule,
        ran,
    })
}
