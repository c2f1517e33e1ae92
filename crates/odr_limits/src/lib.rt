//! The limits of files and runs, once each: contracts cite them by these names.
#![tactic(auto)]

/// The most bytes of a program's ELF file.
pub const MOST_PROGRAM_BYTES: u64 = 16_777_216;

/// The most bytes of a log file, and of a schedule's text.
pub const MOST_LOG_BYTES: u64 = 67_108_864;

/// The most bytes of an input, of an assembly text and of a debugger's commands.
pub const MOST_TEXT_BYTES: u64 = 1_048_576;

/// The most steps of all threads of a log together, and of a recording.
pub const MOST_STEPS: u64 = 250_000;

/// The most accesses of a log whose schedule is inferred.
pub const MOST_ACCESSES: u64 = 512;
