//! The traces of a log.

ghost use Rattle.std.specs.Prelude.{◌≡◌, ◌<◌, [], length, slice_get, slice_index_or, option_map, Some, IfOk, IfSome, IfNone};
ghost use Rattle.rv_model.specs.Walk.{PathsFit};
ghost use Rattle.trace_path.specs.Traced.{IsTraced};

use crate::fault::fault_of;
use crate::threads::{Gathered, are_callers_below, gather};
use elf_image::image::Image;
use odr_list::list::List;
use odr_list::memory::Memory;
use odr_log::log::{Log, Pos};
use rv_model::walk::{FaultPlace, Place};
use rv32_decode::instr::Instr;
use std::alloc::Global;
use std::marker::Model;

/// The walk of a log: the place of each counted step of each thread, and of the fault in which the log ends. A log has
/// at most one walk in an image.
#[derive(Debug, Drop)]
pub struct Traces {
    places: List<List<Place>>,
    fault: Option<FaultPlace>,
    accesses: u64,
}

impl Model for Traces {
    ghost use Rattle.trace_path.specs.Traced.{Traced};

    ghost Value = { Traced };

    ghost view = { λ traces. record { places = traces.places; fault = traces.fault; accesses = traces.accesses } };
}

impl Traces {
    /// The traces of a log, None where its paths don't fit the image. Takes time in proportion to the steps of the
    /// log and, for each of its threads, to its records; memory for one place for each step.
    ///
    /// # Errors
    ///
    /// `Memory` alone.
    pub fn build(alloc: Global, image: &Image, log: &Log) -> Result<Option<Traces>, Memory>
        ensures traced { IfOk result (λ found. IfSome found (IsTraced image.now log.now)) }
        ensures none { IfOk result (λ found. IfNone found (PathsFit image.now log.now → ⊥)) }
    {
        if !are_callers_below(log.calls.as_slice(), log.threads.len()) {
            return Ok(None);
        }
        let Some(gathered) = gather(alloc, image, log)? else {
            return Ok(None);
        };
        let Gathered {
            places,
            stops,
            accesses,
        } = gathered;
        let Some(fault) = fault_of(image, stops.as_slice(), &log.end) else {
            return Ok(None);
        };
        Ok(Some(Traces {
            places,
            fault,
            accesses,
        }))
    }

    /// The address and the instruction of a counted step.
    pub fn instr(&self, at: Pos) -> (u32, Instr)
        requires { at.step < length (slice_index_or self.now.places at.thread []) }
        ensures { slice_get (slice_index_or self.now.places at.thread []) at.step ≡ Some (record { pc = result.0; instr = result.1 }) }
    {
        let place = self.places.as_slice()[usize::from(at.thread)].as_slice()[at.step as usize];
        (place.pc, place.instr)
    }

    /// The address of the fault in which the log ends, with its instruction where one can be fetched and decoded there;
    /// None where it ends in no fault.
    pub fn fault_instr(&self) -> Option<(u32, Option<Instr>)>
        ensures { option_map (λ found. record { pc = found.0; instr = found.1 }) result ≡ self.now.fault }
    {
        let place = self.fault?;
        Some((place.pc, place.instr))
    }

    /// The number of the walk's accesses: loads, stores, LR, SC, AMOs, and calls that moved at least one byte.
    pub fn access_count(&self) -> u64
        ensures { result ≡ self.now.accesses }
    {
        self.accesses
    }
}
