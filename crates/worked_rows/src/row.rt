//! One run of the program over stores and sinks in memory.

use odr_io::mem_files::MemFiles;
use odr_io::mem_sink::MemSink;
use odr_io::mem_source::MemSource;
use odr_top::run::odr_run;
use std::alloc::{AllocError, Global};
use std::process::Abort;
use std::test::Fail;

/// A file that is held before the run: its name, its bytes, and those that are changed, by their places. In the text
/// of a name that ends with `.s` each semicolon stands for the end of a line.
pub type Held<'a> = (&'a str, &'a [u8], &'a [(usize, u8)]);

/// A run of the program.
#[derive(Clone, Copy)]
pub struct Row<'a> {
    pub held: &'a [Held<'a>],
    /// Runs that come before, each of which answers 0.
    pub before: &'a [&'a [&'a str]],
    pub words: &'a [&'a str],
    /// The numbers of the calls that fail, from the first run on: of the store, of out and of err.
    pub failing: [&'a [u64]; 3],
    pub status: u8,
    /// What this run prints.
    pub out: &'a [u8],
    pub err: &'a str,
    /// What a name holds after the run.
    pub saved: (&'a str, Option<&'a [u8]>),
}

pub fn words_of(alloc: Global, words: &[&str]) -> Result<Vec<String>, AllocError> {
    words
        .iter()
        .map(|word| String::from_str(alloc, word))
        .try_collect(alloc)
}

/// The bytes of a file that is held.
pub fn bytes_of(
    alloc: Global,
    name: &str,
    bytes: &[u8],
    changes: &[(usize, u8)],
) -> Result<Vec<u8>, AllocError> {
    let mut bytes = bytes.to_vec(alloc)?;
    for (at, byte) in changes {
        if *at < bytes.len() {
            bytes[*at] = *byte;
        }
    }
    if name.ends_with(".s") {
        for byte in bytes.iter_mut() {
            if *byte == b';' {
                *byte = b'\n';
            }
        }
    }
    Ok(bytes)
}

/// Runs the program once. The standard input fails if it is read.
fn run(
    alloc: Global,
    words: &[&str],
    files: &mut MemFiles,
    out: &mut MemSink,
    err: &mut MemSink,
) -> Result<u8, Fail> {
    let words = words_of(alloc, words)?;
    let mut commands = MemSource::new(Vec::new(alloc), vec![in alloc; 0]?);
    Ok(odr_run(alloc, words.as_slice(), files, &mut commands, out, err))
}

/// Runs the program on a row, and compares what comes of it.
pub fn meets(rt: &impl Abort, alloc: Global, number: usize, row: &Row<'_>) -> Result<(), Fail> {
    let [fails, out_fails, err_fails] = row.failing;
    let mut files = MemFiles::new(alloc, fails.to_vec(alloc)?);
    for (name, bytes, changes) in row.held {
        files.hold(name, bytes_of(alloc, name, bytes, changes)?.as_slice())?;
    }
    let mut earlier = MemSink::new(alloc, Vec::new(alloc));
    for words in row.before {
        let mut out = MemSink::new(alloc, Vec::new(alloc));
        let status = run(alloc, words, &mut files, &mut out, &mut earlier)?;
        assert_eq!(rt; status, 0, "row {number}, {words:?}");
    }
    let mut out = MemSink::new(alloc, out_fails.to_vec(alloc)?);
    let mut err = MemSink::new(alloc, err_fails.to_vec(alloc)?);
    let status = run(alloc, row.words, &mut files, &mut out, &mut err)?;
    assert_eq!(rt; status, row.status, "row {number}");
    assert_eq!(rt; out.bytes(), row.out, "row {number}");
    assert_eq!(rt; err.bytes(), row.err.as_bytes(), "row {number}");
    let (name, saved) = row.saved;
    assert!(rt; files.look(name) == saved, "row {number}");
    Ok(())
}

/// Meets each row of a table.
pub fn meets_all(rt: &impl Abort, alloc: Global, rows: &[Row<'_>]) -> Result<(), Fail> {
    for (number, row) in rows.iter().enumerate() {
        meets(rt, alloc, number, row)?;
    }
    Ok(())
}

/// Runs the program on these files, and compares its answer.
pub fn answers(
    rt: &impl Abort,
    alloc: Global,
    files: &mut MemFiles,
    words: &[&str],
    status: u8,
    out_text: &[u8],
    err_text: &str,
) -> Result<(), Fail> {
    let mut out = MemSink::new(alloc, Vec::new(alloc));
    let mut err = MemSink::new(alloc, Vec::new(alloc));
    let answer = run(alloc, words, files, &mut out, &mut err)?;
    assert_eq!(rt; answer, status);
    assert_eq!(rt; out.bytes(), out_text);
    assert_eq!(rt; err.bytes(), err_text.as_bytes());
    Ok(())
}
