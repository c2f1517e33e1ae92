ghost use Rattle.std.specs.Prelude.{◌≡◌, ◌≢◌, ◌+◌, ◌<◌, ◌≤◌, ◌++◌, length, IfSome, IsErrOf, OnOk, vec_len};
ghost use Rattle.odr_io.specs.Outside.{Rose};

use crate::fail::{Failed, LoadFail, SaveFail};
use crate::files::Files;
use crate::sink::write_all;
use crate::source::Source;
use crate::std_sink::StdSink;
use crate::std_source::StdSource;
use std::alloc::Global;
use std::fs::File;
use std::io::ErrorKind;
use std::marker::Model;
use std::rt;

/// The files of the system, which tell nothing, seen as their count of faults.
///
/// A file that the system does not find is absent, which is no fault; every other error that it reports
/// for a file is one.
#[derive(Debug, Drop)]
pub struct StdFiles<'a, R> {
    rt: &'a R,
    faults: u64,
}

impl<'a, R> Model for StdFiles<'a, R> {
    ghost use Rattle.std.specs.Prelude.{ℕ};

    ghost Value = { ℕ };

    ghost view = { λ s. s.faults };
}

impl<'a, R> StdFiles<'a, R> {
    /// The files that a runtime reaches, none of which has failed yet. Takes no memory.
    pub fn new(rt: &'a R) -> Self
        ensures { result ≡ 0 }
    {
        StdFiles { rt, faults: 0 }
    }
}

/// The size of a piece in which a file is read.
const PIECE: usize = 4096;

/// Appends the bytes that a source has left, where `into` then has at most `limit`.
fn read_whole<S: Source>(source: &mut S, limit: u64, into: &mut Vec<u8>) -> Result<(), LoadFail>
    requires { vec_len into.old ≤ limit }
    ensures whole { OnOk result
        (IfSome (S.left source.old) (λ left. into.new.items ≡ into.old.items ++ left)) }
    ensures within { OnOk result (vec_len into.new ≤ limit) }
    ensures too_long { IsErrOf result LoadFail.TooLong →
        IfSome (S.left source.old) (λ left. limit < length into.old.items + length left) }
    ensures never_absent { result ≢ Err LoadFail.Absent }
    ensures failed { IsErrOf result LoadFail.Failed → Rose (S.faults source.old) (S.faults source.new) }
{
    let mut piece = [0u8; PIECE];
    loop {
        let count = source.read(&mut piece)?;
        if count == 0 {
            return Ok(());
        }
        if count as u64 > limit - into.len() as u64 {
            return Err(LoadFail::TooLong);
        }
        into.extend_from_slice(&piece[..count])?;
    }
}

impl<'a, R: rt::Files> Files for StdFiles<'a, R> {
    ghost use Rattle.std.specs.Prelude.{None};

    ghost held = { λ _. None };

    ghost faults = { λ faults. faults };

    fn load(
        &mut self,
        _alloc: Global,
        name: &str,
        limit: u64,
        into: &mut Vec<u8>,
    ) -> Result<(), LoadFail> {
        into.clear();
        let answer = match File::open(self.rt, name) {
            Ok(file) => read_whole(&mut StdSource::new(file), limit, into),
            Err(error) if error.kind() == ErrorKind::NotFound => Err(LoadFail::Absent),
            Err(_) => Err(LoadFail::Failed),
        };
        if answer.is_err() {
            into.clear();
        }
        if matches!(answer, Err(LoadFail::Failed)) {
            self.faults = self.faults.saturating_add(1);
        }
        answer
    }

    fn save(&mut self, _alloc: Global, name: &str, bytes: &[u8]) -> Result<(), SaveFail> {
        let answer = match File::create(self.rt, name) {
            Ok(file) => write_all(&mut StdSink::new(file), bytes),
            Err(_) => Err(SaveFail::Failed),
        };
        if matches!(answer, Err(SaveFail::Failed)) {
            self.faults = self.faults.saturating_add(1);
        }
        answer
    }
}
