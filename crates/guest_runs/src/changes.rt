//! What was given to steps, with one part changed.

use crate::guests::Part;
use crate::guests::Part::{Byte, Won};
use crate::no_run::NoRun;
use odr_list::bytes::Bytes;
use odr_list::list::List;
use odr_list::memory::Memory;
use plain_walk::given::Supplied;
use std::alloc::Global;

/// A byte list with the lowest bit of a byte changed.
fn flipped(alloc: Global, bytes: &Bytes, at: usize) -> Result<Bytes, NoRun> {
    let mut changed = bytes.as_slice().to_vec(alloc)?;
    match changed.get_mut(at) {
        Some(byte) => *byte ^= 1,
        None => return Err(NoRun::Place),
    }
    Ok(Bytes::of(changed))
}

fn copy_of(alloc: Global, supplied: &Supplied) -> Result<Supplied, Memory> {
    Ok(Supplied {
        bytes: Bytes::from_slice(alloc, supplied.bytes.as_slice())?,
        won: supplied.won,
    })
}

fn altered(alloc: Global, supplied: &Supplied, part: Part) -> Result<Supplied, NoRun> {
    match part {
        Byte(at) => Ok(Supplied {
            bytes: flipped(alloc, &supplied.bytes, at)?,
            won: supplied.won,
        }),
        Won => Ok(Supplied {
            bytes: Bytes::from_slice(alloc, supplied.bytes.as_slice())?,
            won: !supplied.won,
        }),
    }
}

/// What a thread was given, with one part changed at one of its steps.
fn row_with(
    alloc: Global,
    row: &[Supplied],
    here: Option<usize>,
    part: Part,
) -> Result<List<Supplied>, NoRun> {
    let mut list = List::new(alloc);
    for (at, supplied) in row.iter().enumerate() {
        if here == Some(at) {
            list.push(altered(alloc, supplied, part)?)?;
        } else {
            list.push(copy_of(alloc, supplied)?)?;
        }
    }
    Ok(list)
}

/// What was given, with one part of one step changed.
///
/// # Errors
///
/// `NoRun`, where that step has no such part.
pub fn change(
    alloc: Global,
    rows: &[List<Supplied>],
    (thread, step, part): (u8, u32, Part),
) -> Result<Vec<List<Supplied>>, NoRun> {
    let mut all = Vec::new(alloc);
    for (number, row) in rows.iter().enumerate() {
        let here = if number == thread as usize {
            Some(step as usize)
        } else {
            None
        };
        all.push(row_with(alloc, row.as_slice(), here, part)?)?;
    }
    Ok(all)
}
