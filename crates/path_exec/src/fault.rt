//! The fault that ends a log.
ghost use Rattle.std.specs.Prelude.{◌≡◌, ◌<◌, true, length, IfOk, IfSome, OnOk};
ghost use Rattle.std.specs.Result.{result_ok};
ghost use Rattle.odr_log.specs.declared.log.End.TheVariants as end;
ghost use Rattle.path_exec.specs.Ending.{IsFaultMade, IsFaultAdded, MayEnd};
ghost use Rattle.rv32_decode.specs.Valid.{IsValid};
ghost use Rattle.rv_model.specs.Step.{instr_at};
ghost use Rattle.rv_model.specs.Walk.{may_fault};
ghost use Rattle.step_terms.specs.Made.{Grows};
ghost use Rattle.thread_terms.specs.Standing.{AreRegisters};

use crate::follow::walker_of;
use crate::progress::Progress;
use access_terms::fault::fault;
use bv_rewrite::rewrite::Rewrite;
use bv_terms::node::TermId;
use bv_terms::pool::TermPool;
use elf_image::image::Image;
use odr_list::memory::Memory;
use odr_log::log::{Cause, End, Log};
use rv_model::walk::Place;
use rv32_decode::instr::Instr;
use step_terms::make::constant;
use trace_path::Traces;

// Whether what is fetched at an address faults as it is recorded: a term of one bit. Where no instruction can be fetched or
// decoded, it surely does.
fn fault_at<R: Rewrite>(
    pool: &mut TermPool<'_>,
    book: &R,
    image: &Image,
    pc: u32,
    fetched: Option<Instr>,
    cause: Cause,
    registers: &[TermId; 32],
) -> Result<TermId, Memory>
    requires registers { AreRegisters pool.old registers.now }
    requires fetched { fetched ≡ result_ok (instr_at image.now pc) }
    requires fits { may_fault cause pc (instr_at image.now pc) ≡ true }
    requires valid { IfSome fetched IsValid }
    ensures made { IfOk result (λ id. IsFaultMade image.now pc cause fetched pool.old pool.new registers.now id) }
    ensures grows { Grows pool.old pool.new }
{
    match fetched {
        Some(instr) => fault(pool, book, image, &Place { pc, instr }, cause, registers),
        None => constant(pool, 1, 1),
    }
}

/// Adds the constraint of the fault that ends a log, if it ends in one.
pub fn add_fault<R: Rewrite>(
    pool: &mut TermPool<'_>,
    book: &R,
    image: &Image,
    traces: &Traces,
    log: &Log,
    progress: &mut Progress,
) -> Result<(), Memory>
    requires ends { MayEnd image.now pool.old traces.now.fault progress.old.walkers log.now.end }
    ensures added { OnOk result (IsFaultAdded image.now traces.now.fault log.now.end pool.old pool.new progress.old progress.new) }
    ensures grows { Grows pool.old pool.new }
{
    let End::Faulted { tid, cause } = log.end else {
        return Ok(());
    };
    let Some((pc, fetched)) = traces.fault_instr() else {
        unreachable!()
    };
    let walker = walker_of(progress.walkers.as_slice(), tid);
    let id = fault_at(pool, book, image, pc, fetched, cause, &walker.registers)?;
    progress.constraints.push(id)
}
