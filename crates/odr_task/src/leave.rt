ghost use Rattle.std.specs.Prelude.{◌≡◌, ◌≢◌, ◌⊎◌, OnOk, OnErr, IsErrOf, is_some};
ghost use Rattle.std.specs.Io.KnownBytes.{append_known};
ghost use Rattle.odr_io.specs.Outside.{Rose};
ghost use Rattle.odr_io.specs.Written.{AppendsPrefix};
ghost use Rattle.odr_task.specs.Done.{HasSaved, KeepsBut};

use crate::done::Done;
use odr_io::fail::SaveFail;
use odr_io::files::Files;
use odr_io::sink::{Sink, write_all};
use std::alloc::Global;

/// Saves the file that a command came to, if there is one.
fn save<F: Files>(alloc: Global, files: &mut F, done: &Done<'_>) -> Result<(), SaveFail>
    ensures saved { OnOk result (HasSaved (F.held files.old) (F.held files.new) done.now.file) }
    ensures others { KeepsBut (F.held files.old) (F.held files.new) done.now.file }
    ensures memory { IsErrOf result SaveFail.Memory → F.held files.new ≡ F.held files.old }
    ensures told { is_some (F.held files.new) ≡ is_some (F.held files.old) }
    ensures failed { IsErrOf result SaveFail.Failed → Rose (F.faults files.old) (F.faults files.new) }
    ensures steady { result ≢ Err SaveFail.Failed → F.faults files.new ≡ F.faults files.old }
{
    match &done.file {
        None => Ok(()),
        Some(file) => files.save(alloc, file.name, file.bytes.as_slice()),
    }
}

/// Leaves outside what a command came to: saves its file, and then prints.
pub fn leave<F: Files, O: Sink>(
    alloc: Global,
    files: &mut F,
    out: &mut O,
    done: &Done<'_>,
) -> Result<(), SaveFail>
    ensures saved { OnOk result (HasSaved (F.held files.old) (F.held files.new) done.now.file) }
    ensures printed { OnOk result (O.written out.new ≡ append_known (O.written out.old) done.now.printed) }
    ensures others { KeepsBut (F.held files.old) (F.held files.new) done.now.file }
    ensures cut { OnErr result (AppendsPrefix (O.written out.old) (O.written out.new) done.now.printed) }
    ensures failed { IsErrOf result SaveFail.Failed → Rose (F.faults files.old) (F.faults files.new) ⊎ Rose (O.faults out.old) (O.faults out.new) }
    ensures steady { result ≢ Err SaveFail.Failed → (F.faults files.new ≡ F.faults files.old) × (O.faults out.new ≡ O.faults out.old) }
    ensures saved_first { (out.new ≡ out.old) ⊎ HasSaved (F.held files.old) (F.held files.new) done.now.file }
    ensures told { is_some (F.held files.new) ≡ is_some (F.held files.old) }
    ensures whole { (Rose (F.faults files.old) (F.faults files.new) → ⊥) → (F.held files.new ≡ F.held files.old) ⊎ HasSaved (F.held files.old) (F.held files.new) done.now.file }
{
    save(alloc, files, done)?;
    write_all(out, done.printed.as_slice())
}
