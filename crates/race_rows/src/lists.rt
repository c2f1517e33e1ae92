//! Random lists of accesses of two logs, the same in each run.

ghost use Rattle.std.specs.Prelude.{◌<◌};

use guest_programs::logs::{LOCKED_LOG, LOST_UPDATE_LOG};
use odr_log::log::Pos;
use race_set::shape::{AccessShape, Span};
use std::alloc::{AllocError, Global};

/// Numbers of a linear congruential generator.
#[derive(Drop)]
pub struct Random {
    pub state: u32,
}

impl Random {
    fn below(&mut self, count: u32) -> u32
        ensures { 0 < count → result < count }
    {
        self.state = self
            .state
            .wrapping_mul(1_664_525)
            .wrapping_add(1_013_904_223);
        (self.state >> 16) % count.max(1)
    }

    /// The step of a thread of the log, one of those of a slot.
    fn step(&mut self, slot: u32, is_locked: bool) -> Pos {
        let thread = self.below(3);
        // A sixth of the steps that the log counts of the thread.
        let room = match (thread, is_locked) {
            (0, _) => 4,
            (_, true) => 2,
            (_, false) => 1,
        };
        Pos {
            thread: thread as u8,
            step: slot.saturating_mul(room).saturating_add(self.below(room)),
        }
    }

    /// Bytes on both sides of the end of memory, or an unknown place.
    fn place(&mut self) -> Option<Span> {
        if self.below(7) == 0 {
            return None;
        }
        let first = 0xffff_fffd_u32.wrapping_add(self.below(6));
        let len = match self.below(3) {
            0 => 1,
            1 => 2,
            _ => 4,
        };
        Some(Span { first, len })
    }

    fn shape(&mut self, slot: u32, is_locked: bool) -> AccessShape {
        let pos = self.step(slot, is_locked);
        let does = self.below(5);
        let place = self.place();
        AccessShape {
            pos,
            reads: does < 2 || does == 4,
            writes: does >= 2,
            place,
            link: None,
        }
    }

    fn shapes(&mut self, alloc: Global, is_locked: bool) -> Result<Vec<AccessShape>, AllocError> {
        let is_turned = self.below(2) == 0;
        let count = self.below(6) + 1;
        let mut shapes = Vec::new(alloc);
        for number in 0..count {
            let slot = if is_turned {
                5u32.saturating_sub(number)
            } else {
                number
            };
            shapes.push(self.shape(slot, is_locked))?;
        }
        Ok(shapes)
    }

    /// The same accesses, some of which look back to one of their thread that reads.
    fn linked(
        &mut self,
        alloc: Global,
        shapes: &[AccessShape],
    ) -> Result<Vec<AccessShape>, AllocError> {
        let mut linked = Vec::new(alloc);
        for shape in shapes {
            let is_linked = self.below(3) > 0 && !shape.reads;
            let link = if is_linked {
                reserved_of(shapes, shape.pos)
            } else {
                None
            };
            linked.push(AccessShape { link, ..*shape })?;
        }
        Ok(linked)
    }

    /// A log, and up to six accesses of it.
    pub fn list(&mut self, alloc: Global) -> Result<(&'static [u8], Vec<AccessShape>), AllocError> {
        let is_locked = self.below(2) == 0;
        let shapes = self.shapes(alloc, is_locked)?;
        let linked = self.linked(alloc, shapes.as_slice())?;
        Ok((log_of(is_locked), linked))
    }
}

fn log_of(is_locked: bool) -> &'static [u8] {
    if is_locked { &LOCKED } else { &LOST_UPDATE }
}

static LOCKED: [u8; 159] = LOCKED_LOG;

static LOST_UPDATE: [u8; 115] = LOST_UPDATE_LOG;

/// The last listed access of the thread that reads before a step.
fn reserved_of(shapes: &[AccessShape], at: Pos) -> Option<Pos> {
    let mut reserved = None;
    for shape in shapes {
        if shape.reads && shape.pos.thread == at.thread && shape.pos.step < at.step {
            reserved = Some(shape.pos);
        }
    }
    reserved
}
