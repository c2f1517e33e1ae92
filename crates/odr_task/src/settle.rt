ghost use Rattle.std.specs.Prelude.{◌≡◌, IfOk};
ghost use Rattle.odr_task.specs.Settled.{IsCut, Settled};

use crate::done::Done;
use crate::leave::leave;
use crate::refusal::Stop;
use crate::report::report;
use odr_io::files::Files;
use odr_io::sink::Sink;
use std::alloc::Global;

/// Leaves outside what a command came to, or says on err why it stopped, and answers the exit status: 6 where a
/// store or a sink failed, 1 for want of memory, else that of what it came to.
pub fn settle<F: Files, O: Sink, E: Sink>(
    alloc: Global,
    prepared: &Result<Done<'_>, Stop<'_>>,
    files: &mut F,
    out: &mut O,
    err: &mut E,
) -> u8
    requires { IfOk prepared.now (λ done. IsCut done.status → ⊥) }
    ensures { Settled prepared.now (files.new ≡ files.old) (out.new ≡ out.old) result (F.held files.old) (F.held files.new) (F.faults files.old) (F.faults files.new)
        (O.written out.old) (O.written out.new) (O.faults out.old) (O.faults out.new) (E.written err.old) (E.written err.new) (E.faults err.old) (E.faults err.new) }
{
    match prepared {
        Ok(done) => match leave(alloc, files, out, done) {
            Ok(()) => done.status,
            Err(fail) => report(alloc, err, Stop::from(fail)),
        },
        Err(stop) => report(alloc, err, *stop),
    }
}
