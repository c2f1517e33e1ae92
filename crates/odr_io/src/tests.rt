ghost use Rattle.std.specs.Prelude.{◌≡◌, IfOk};

use crate::fail::{Failed, LoadFail, SaveFail};
use crate::files::Files;
use crate::mem_files::MemFiles;
use crate::mem_sink::MemSink;
use crate::mem_source::MemSource;
use crate::sink::{Sink, write_all};
use crate::source::Source;
use crate::std_files::StdFiles;
use crate::std_sink::StdSink;
use crate::std_source::StdSource;
use crate::sure_files::SureFiles;
use crate::sure_sink::SureSink;
use crate::sure_source::SureSource;
use std::alloc::Global;
use std::io::{ErrorKind, Read};
use std::process::Abort;
use std::test::Fail;
use std::{fs, io};

// Saves three bytes and loads them, with room for them and without; loads a name that nothing holds.
fn saves_and_loads<F: Files>(
    rt: &impl Abort,
    alloc: Global,
    files: &mut F,
    name: &str,
    gone: &str,
) {
    let mut into = Vec::new(alloc);
    assert_eq!(rt; files.save(alloc, name, b"abcd"), Ok(()));
    assert_eq!(rt; files.save(alloc, name, b"abc"), Ok(()));
    assert_eq!(rt; files.load(alloc, name, 3, &mut into), Ok(()));
    assert_eq!(rt; into.as_slice(), b"abc".as_slice());
    assert_eq!(rt;
        files.load(alloc, name, 2, &mut into),
        Err(LoadFail::TooLong)
    );
    assert_eq!(rt;
        files.load(alloc, gone, 2, &mut into),
        Err(LoadFail::Absent)
    );
}

#[test]
fn stores_keep_what_is_saved(rt: HostRuntime) -> Result<(), Fail> {
    let alloc = rt.alloc();
    let name = "odr_io_saved_file";
    saves_and_loads(&rt, alloc, &mut SureFiles::new(alloc), name, "gone");
    saves_and_loads(
        &rt,
        alloc,
        &mut MemFiles::new(alloc, Vec::new(alloc)),
        name,
        "gone",
    );
    saves_and_loads(
        &rt,
        alloc,
        &mut StdFiles::new(&rt),
        name,
        "odr_io_absent_file",
    );
    fs::remove_file(&rt, name)?;
    Ok(())
}

#[test]
fn numbered_calls_of_a_store_fail(rt: HostRuntime) -> Result<(), Fail> {
    let alloc = rt.alloc();
    for failing in 0..4 {
        let mut files = MemFiles::new(alloc, vec![in alloc; failing]?);
        files.hold("a", b"abc")?;
        let mut into = Vec::new(alloc);
        let load = files.load(alloc, "a", 3, &mut into);
        assert_eq!(rt; load == Err(LoadFail::Failed), failing == 0);
        let save = files.save(alloc, "b", b"de");
        assert_eq!(rt; save == Err(SaveFail::Failed), failing == 1);
        let load = files.load(alloc, "b", 3, &mut into);
        assert_eq!(rt; load == Err(LoadFail::Failed), failing == 2);
        assert_eq!(rt; files.look("b").is_some(), failing != 1);
    }
    Ok(())
}

#[test]
fn numbered_calls_of_streams_fail(rt: HostRuntime) -> Result<(), Fail> {
    let alloc = rt.alloc();
    let rows = [
        (0, [Err(Failed), Ok(2), Ok(1)], b"cd".as_slice()),
        (1, [Ok(2), Err(Failed), Ok(1)], b"ab".as_slice()),
        (2, [Ok(2), Ok(1), Err(Failed)], b"abcd".as_slice()),
        (3, [Ok(2), Ok(1), Ok(0)], b"abcd".as_slice()),
    ];
    for (failing, reads, written) in rows {
        let mut source = MemSource::new(b"abc".to_vec(alloc)?, vec![in alloc; failing]?);
        for read in reads {
            assert_eq!(rt; source.read(&mut [0; 2]), read, "call {failing}");
        }
        let mut sink = MemSink::new(alloc, vec![in alloc; failing]?);
        for piece in [b"ab", b"cd"] {
            let _ = write_all(&mut sink, piece);
        }
        assert_eq!(rt; sink.bytes(), written, "call {failing}");
    }
    Ok(())
}

// A reader that a signal cuts short at its first call, that ends at the second and fails from then on.
#[derive(Drop)]
struct Signalled {
    calls: u8,
}

impl Signalled {
    fn call(&mut self) -> io::Result<usize>
        ensures { IfOk result (λ count. count ≡ 0) }
    {
        self.calls = self.calls.saturating_add(1);
        match self.calls {
            1 => Err(io::Error::from(ErrorKind::Interrupted)),
            2 => Ok(0),
            _ => Err(io::Error::from(ErrorKind::Other)),
        }
    }
}

impl Read for Signalled {
    fn read(&mut self, _buf: &mut [u8]) -> io::Result<usize> {
        self.call()
    }
}

#[test]
fn streams_of_std_read_and_write(rt: HostRuntime) -> Result<(), Fail> {
    let alloc = rt.alloc();
    let mut into = [0; 2];
    let mut sure = SureSource::new(b"abc".to_vec(alloc)?);
    assert_eq!(rt; sure.read(&mut into), Ok(2));
    assert_eq!(rt; StdSource::new(b"abc".as_slice()).read(&mut into), Ok(2));
    let mut signalled = StdSource::new(Signalled { calls: 0 });
    assert_eq!(rt; signalled.read(&mut into), Ok(0));
    assert_eq!(rt; signalled.read(&mut into), Err(Failed));

    let mut sink = SureSink::new(alloc);
    assert_eq!(rt; write_all(&mut sink, b"abc"), Ok(()));
    assert_eq!(rt; sink.bytes(), b"abc".as_slice());
    let mut room = [0; 2];
    let mut full = StdSink::new(room.as_mut_slice());
    assert_eq!(rt; full.write(b"abc"), Ok(2));
    assert_eq!(rt; full.write(b"c"), Err(SaveFail::Failed));
    assert_eq!(rt; full.write(b""), Ok(0));
    Ok(())
}
