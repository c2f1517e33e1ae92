//! Accesses as the tables write them.

use happens_before::order::Order;
use odr_list::list::List;
use odr_log::log::Pos;
use odr_log::read_log;
use race_set::reading::Seen;
use race_set::shape::{AccessShape, Span};
use std::alloc::{AllocError, Global};
use std::test::Fail;

/// A step by its thread and its number.
pub type Step = (u8, u32);

/// The first byte and the number of bytes.
pub type Bytes = (u32, u32);

/// What an access does.
#[derive(Clone, Copy)]
pub enum Does {
    Reads,
    Writes,
    Both,
    /// It is a store-conditional that looks back to the load-reserved at this step of its thread.
    Stores(u32),
}

/// A step, what it does, and where, if that is known.
pub type Access = (Step, Does, Option<Bytes>);

/// A reader, bytes that it sees, and the step that wrote them, if one did.
pub type Sight = (Step, Bytes, Option<Step>);

/// The order that the bytes of a log record.
pub fn order_of(alloc: Global, bytes: &[u8]) -> Result<Order, Fail> {
    let log = read_log(alloc, bytes).ok().ok_or("a log")?;
    let order = Order::new(alloc, &log)?;
    Ok(order.ok_or("calls that fit")?)
}

pub fn at(step: Step) -> Pos {
    Pos {
        thread: step.0,
        step: step.1,
    }
}

pub fn shape_of(access: Access) -> AccessShape {
    let (step, does, place) = access;
    let link = match does {
        Does::Stores(reserved) => Some(at((step.0, reserved))),
        _ => None,
    };
    AccessShape {
        pos: at(step),
        reads: matches!(does, Does::Reads | Does::Both),
        writes: !matches!(does, Does::Reads),
        place: place.map(|(first, len)| Span { first, len }),
        link,
    }
}

pub fn shapes_of(alloc: Global, accesses: &[Access]) -> Result<Vec<AccessShape>, AllocError> {
    accesses
        .iter()
        .map(|access| shape_of(*access))
        .collect(alloc)
}

pub fn steps_of(alloc: Global, steps: &[Step]) -> Result<Vec<Pos>, AllocError> {
    steps.iter().map(|step| at(*step)).collect(alloc)
}

/// The seen bytes, one by one.
pub fn seen_of(alloc: Global, sights: &[Sight]) -> Result<Vec<Seen>, AllocError> {
    let mut seen = Vec::new(alloc);
    for (reader, (first, len), from) in sights {
        for number in 0..*len {
            seen.push(Seen {
                reader: at(*reader),
                byte: first.wrapping_add(number),
                from: from.map(|step| at(step)),
            })?;
        }
    }
    Ok(seen)
}

/// Whether a list has these items.
pub fn has<T: PartialEq>(list: &List<T>, items: &[T]) -> bool {
    list.as_slice() == items
}
