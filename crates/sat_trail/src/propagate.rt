//! The unit rule, along the rows of the literals that became false.
ghost use Rattle.std.specs.Prelude.{◌≡◌, ◌<◌, ◌≤◌, length, IfOk};
ghost use Rattle.sat_trail.specs.Visits.{IsEngine, IsRun, IsVisited};

use crate::index::Index;
use crate::trail::Trail;
use crate::visit::{Visit, look_at};
use clause_store::Memory;

/// How far the rule came.
#[derive(Clone, Copy, Debug)]
pub struct Run {
    /// The number of steps whose rows are done.
    pub next: usize,
    /// A clause that is false; none where the rule has nothing left to do.
    pub clash: Option<u32>,
}

/// Does the row of one step: of each clause that watches a literal which the step made false, another literal is
/// watched, or its last open one is made true, or it is false, which ends the visit.
pub fn visit_row(trail: &mut Trail, index: &mut Index, at: usize) -> Result<Option<u32>, Memory>
    requires engine { IsEngine trail.old index.old at }
    requires below { at < length trail.old.steps }
    ensures { IfOk result (λ clash. IsVisited trail.old index.old trail.new index.new at clash) }
{
    let from = trail.step(at).lit.opposite();
    let _clauses = index.len();
    let mut place = 0;
    while place < index.row_len(from) {
        match look_at(trail, index, from, place) {
            Visit::Keep => place += 1,
            Visit::Block { clause, blocker } => {
                index.set_blocker(from, place, clause, blocker);
                place += 1;
            }
            // The row's last watcher takes the place: it is looked at next.
            Visit::Move { clause, stay, to } => {
                index.move_watch(from, place, clause, stay, to)?;
            }
            Visit::Clash { clause } => return Ok(Some(clause)),
            Visit::Push { clause, lit } => {
                trail.push(lit, Some(clause))?;
                place += 1;
            }
        }
    }
    Ok(None)
}

/// Does the rows of all steps from one on.
pub fn visit_rows(trail: &mut Trail, index: &mut Index, from: usize) -> Result<Run, Memory>
    requires { IsEngine trail.old index.old from }
    ensures { IfOk result (λ run. IsRun trail.old index.old trail.new index.new run) }
{
    let mut next = from;
    while next < trail.len() {
        let clash = visit_row(trail, index, next)?;
        if clash.is_some() {
            return Ok(Run { next, clash });
        }
        next += 1;
    }
    Ok(Run { next, clash: None })
}
