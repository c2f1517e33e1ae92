//! The program: it hands its words, the files and the standard streams to the top call, and ends with the
//! top call's answer.
#![tactic(auto)]

use odr_io::std_files::StdFiles;
use odr_io::std_sink::StdSink;
use odr_io::std_source::StdSource;
use odr_top::run::odr_run;
use std::env::Env;
use std::process::ExitCode;
use std::{env, io};

fn main(rt: HostRuntime) -> ExitCode {
    let words = match words_of(&rt) {
        Ok(words) => words,
        Err(error) => return ExitCode::from(status_of(&error)),
    };
    let mut files = StdFiles::new(&rt);
    let mut commands = StdSource::new(rt.stdin());
    let mut out = StdSink::new(rt.stdout());
    let mut err = StdSink::new(rt.stderr());
    let status = odr_run(
        rt.alloc(),
        words.as_slice(),
        &mut files,
        &mut commands,
        &mut out,
        &mut err,
    );
    ExitCode::from(status)
}

/// The words of the command line, without the program's own name.
fn words_of<R: Env + AllocGlobal>(rt: &R) -> io::Result<Vec<String>> {
    Ok(env::args(rt)?.skip(1).collect(rt.alloc())?)
}

/// The status where the environment doesn't hand out the words: 1 for want of memory, else 6.
fn status_of(error: &io::Error) -> u8 {
    match error.kind() {
        io::ErrorKind::OutOfMemory => 1,
        _ => 6,
    }
}
