//! Following all threads of a log.
ghost use Rattle.std.specs.Prelude.{◌≡◌, All, IfOk, OnOk};
ghost use Rattle.guided_walk.specs.Told.{told};
ghost use Rattle.odr_log.specs.Grammar.{IsValid};
ghost use Rattle.path_exec.specs.Paths.{ArePaths};
ghost use Rattle.path_exec.specs.Following.{IsFollowed, IsReady, at_note, at_place};
ghost use Rattle.path_exec.specs.Progress.{AreFollowed};
ghost use Rattle.rv_model.specs.CallsFit.{CallsFit};
ghost use Rattle.rv_model.specs.Walk.{IsWalk, Walk};
ghost use Rattle.step_terms.specs.Made.{Grows, IsTerm};
ghost use Rattle.step_order.specs.Order.{IsStepOrder};
ghost use Rattle.trace_path.specs.Traced.{IsTraced};
ghost use Rattle.walk_lists.specs.Data.{told_of};

use crate::ending::ends_of;
use crate::fault::add_fault;
use crate::follow::follow;
use crate::paths::Paths;
use crate::progress::Progress;
use bv_rewrite::rewrite::Rewrite;
use bv_terms::pool::TermPool;
use elf_image::image::Image;
use odr_list::list::List;
use odr_list::memory::Memory;
use odr_log::log::{Log, Pos};
use rv_model::state::Note;
use rv_model::walk::Place;
use std::alloc::Global;
use step_order::order_of_steps;
use trace_path::Traces;
use walk_notes::notes_of_log;

// Follows one counted step.
fn follow_at<R: Rewrite>(
    alloc: Global,
    pool: &mut TermPool<'_>,
    book: &R,
    image: &Image,
    traces: &Traces,
    notes: &[List<Note>],
    pos: Pos,
    progress: &mut Progress,
) -> Result<(), Memory>
    requires ready { IsReady traces.now.places notes.now pos pool.old progress.old }
    ensures followed { OnOk result (IsFollowed image.now pos (at_place traces.now.places pos) (at_note notes.now pos) pool.old pool.new progress.old progress.new) }
    ensures grows { Grows pool.old pool.new }
{
    let (pc, instr) = traces.instr(pos);
    let shown = &notes[usize::from(pos.thread)].as_slice()[pos.step as usize];
    let place = Place { pc, instr };
    follow(alloc, pool, book, image, pos, &place, shown, progress)
}

// Follows steps in an order in which each stands after what it is made of.
fn follow_all<R: Rewrite>(
    alloc: Global,
    pool: &mut TermPool<'_>,
    book: &R,
    image: &Image,
    traces: &Traces,
    log: &Log,
    notes: &[List<Note>],
    steps: &[Pos],
) -> Result<Progress, Memory>
    requires traced { IsTraced image.now log.now traces.now }
    requires fits { CallsFit log.now }
    requires valid { IsValid log.now }
    requires notes { (walk : Walk) → IsWalk image.now log.now walk → told_of notes.now log.now.calls ≡ told log.now walk }
    requires order { (walk : Walk) → IsWalk image.now log.now walk → IsStepOrder log.now walk steps.now }
    ensures followed { IfOk result (AreFollowed image.now log.now pool.new steps.now) }
    ensures grows { Grows pool.old pool.new }
{
    let mut progress = Progress::new(alloc, pool, log.threads.len())?;
    for i in 0..steps.len() {
        follow_at(
            alloc,
            pool,
            book,
            image,
            traces,
            notes,
            steps[i],
            &mut progress,
        )?;
    }
    Ok(progress)
}

impl Paths {
    /// Follows each thread of a log along its walk, once. The traces are those of the image and the log, and the log's calls fit.
    ///
    /// # Errors
    ///
    /// `Memory` alone.
    pub fn run<R: Rewrite>(
        alloc: Global,
        pool: &mut TermPool<'_>,
        book: &R,
        image: &Image,
        traces: &Traces,
        log: &Log,
    ) -> Result<Paths, Memory>
        requires traced { IsTraced image.now log.now traces.now }
        requires fits { CallsFit log.now }
        requires valid { IsValid log.now }
        ensures paths { IfOk result (λ paths. (walk : Walk) → IsWalk image.now log.now walk → ArePaths image.now log.now walk pool.new paths) }
        ensures bits { IfOk result (λ paths. All (λ id. IsTerm pool.new 1 id.number) paths.constraints) }
        ensures grows { Grows pool.old pool.new }
    {
        let notes = notes_of_log(alloc, image, log, traces)?;
        let steps = order_of_steps(alloc, log)?;
        let mut progress = follow_all(
            alloc,
            pool,
            book,
            image,
            traces,
            log,
            notes.as_slice(),
            steps.as_slice(),
        )?;
        add_fault(pool, book, image, traces, log, &mut progress)?;
        let ends = ends_of(alloc, progress.walkers.as_slice())?;
        let Progress {
            accesses,
            constraints,
            ..
        } = progress;
        Ok(Paths {
            accesses,
            constraints,
            ends,
        })
    }
}
