//! What the guest read and wrote, by the log.

ghost use Rattle.std.specs.Prelude.{◌≡◌, IfOk};
ghost use Rattle.odr_log.specs.Tape.{tape_of, output_of};

use crate::log::{Call, Log};
use odr_list::memory::Memory;
use std::alloc::Global;

/// The bytes that the reads of the log took from the input tape, joined in call order.
pub fn tape(alloc: Global, log: &Log) -> Result<Vec<u8>, Memory>
    ensures { IfOk result (λ bytes. bytes.items ≡ tape_of log.now) }
{
    let mut joined = Vec::new(alloc);
    for made in log.calls.as_slice() {
        if let Call::Read { bytes, .. } = &made.call {
            joined.extend_from_slice(bytes.as_slice())?;
        }
    }
    Ok(joined)
}

/// The bytes that the writes of the log put out, joined in call order.
pub fn output(alloc: Global, log: &Log) -> Result<Vec<u8>, Memory>
    ensures { IfOk result (λ bytes. bytes.items ≡ output_of log.now) }
{
    let mut joined = Vec::new(alloc);
    for made in log.calls.as_slice() {
        if let Call::Write { bytes } = &made.call {
            joined.extend_from_slice(bytes.as_slice())?;
        }
    }
    Ok(joined)
}
