//! The place of the fault in which a log ends.

ghost use Rattle.std.specs.Prelude.{◌≡◌};
ghost use Rattle.rv_model.specs.Walk.{may_misalign, may_fault};
ghost use Rattle.trace_path.specs.Faults.{faults_at, fault_of};

use crate::step::is_aligned;
use crate::thread::Stop;
use elf_image::image::Image;
use odr_log::log::{Cause, End};
use rv_model::code::instr_at;
use rv_model::walk::{FaultPlace, Transfer, transfer_of};
use rv32_decode::instr::Instr;

/// A jump to a target that is no multiple of four, or that only a register tells.
fn may_misalign(transfer: &Transfer) -> bool
    ensures { result ≡ may_misalign transfer.now }
{
    match transfer {
        Transfer::Direct { target } | Transfer::Branch { target } => !is_aligned(*target),
        Transfer::Indirect => true,
        _ => false,
    }
}

/// Whether an instruction may fault so.
fn may_fault(cause: Cause, pc: u32, fetched: &Result<Instr, Cause>) -> bool
    ensures { result ≡ may_fault cause pc fetched.now }
{
    match (cause, fetched) {
        (Cause::FetchFault, Err(Cause::FetchFault)) | (Cause::Illegal, Err(Cause::Illegal)) => true,
        (Cause::Breakpoint, Ok(Instr::Ebreak)) => true,
        (Cause::Misaligned, Ok(instr)) => may_misalign(&transfer_of(pc, instr)),
        (Cause::LoadFault, Ok(Instr::Load { .. })) => true,
        (Cause::StoreFault, Ok(Instr::Store { .. })) => true,
        (
            Cause::AmoFault,
            Ok(Instr::LoadReserved { .. } | Instr::StoreConditional { .. } | Instr::Amo { .. }),
        ) => true,
        _ => false,
    }
}

/// The place of a fault of a thread that stops there, none where it can't fault so.
fn faults_at(image: &Image, stop: Stop, cause: Cause) -> Option<FaultPlace>
    ensures { result ≡ faults_at image.now stop cause }
{
    let fetched = instr_at(image, stop.pc);
    if stop.over || !may_fault(cause, stop.pc, &fetched) {
        return None;
    }
    Some(FaultPlace {
        pc: stop.pc,
        instr: fetched.ok(),
    })
}

/// The place of the fault in which a log ends, none where it ends in none; none at all where it can't end so.
pub fn fault_of(image: &Image, stops: &[Stop], end: &End) -> Option<Option<FaultPlace>>
    ensures { result ≡ fault_of image.now stops.now end.now }
{
    match end {
        End::Faulted { tid, cause } => match stops.get(usize::from(*tid)) {
            None => None,
            Some(stop) => faults_at(image, *stop, *cause).map(Some),
        },
        _ => Some(None),
    }
}
