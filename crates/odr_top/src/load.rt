ghost use Rattle.std.specs.Prelude.{◌≡◌, ◌≢◌, ◌≤◌, length, IfOk, IfErr};
ghost use Rattle.elf_image.specs.Fault.{check_of};
ghost use Rattle.odr_log.specs.Grammar.{IsValid};
ghost use Rattle.odr_task.specs.Files.{Gives, Refuses, StopsBy, Reads};
ghost use Rattle.odr_limits.specs.declared.TheConstants.{MOST_LOG_BYTES, MOST_PROGRAM_BYTES, MOST_TEXT_BYTES};
ghost use Rattle.odr_top.specs.Inputs.{check_name, IsProgram, NoProgram, IsRecording, NoRecording, IsScheduleFile, NoScheduleFile, IsInput, NoInput, IsSource, NoSource, GivesRun, RefusesRun, GivesTape, RefusesTape};

use elf_image::fault::{Check, ElfFault};
use elf_image::image::Image;
use odr_io::files::Files;
use odr_limits::{MOST_LOG_BYTES, MOST_PROGRAM_BYTES, MOST_TEXT_BYTES};
use odr_list::bytes::Bytes;
use odr_log::log::Log;
use odr_log::{LogFault, read_log};
use odr_task::load::load;
use odr_task::refusal::{Refusal, Stop};
use odr_words::job::WordText;
use rv32_asm::{AsmFault, assemble};
use sched_text::fault::SchedFault;
use sched_text::read::read_schedule;
use sched_text::schedule::Schedule;
use std::alloc::Global;

/// The name of a check on an ELF file.
fn check_name(check: Check) -> &'static str
    ensures { result.now ≡ check_name check }
{
    match check {
        Check::Short => "Short",
        Check::Magic => "Magic",
        Check::Class => "Class",
        Check::Kind => "Kind",
        Check::Machine => "Machine",
        Check::Compressed => "Compressed",
        Check::Headers => "Headers",
        Check::Dynamic => "Dynamic",
        Check::NoLoad => "NoLoad",
        Check::TooManyLoads => "TooManyLoads",
        Check::Range => "Range",
        Check::WritableCode => "WritableCode",
        Check::Overlap => "Overlap",
        Check::TooLarge => "TooLarge",
        Check::EntryOutside => "EntryOutside",
    }
}

/// The check that a fault names, or none for want of memory.
fn check_of(fault: ElfFault) -> Option<Check>
    ensures { result ≡ check_of fault }
{
    match fault {
        ElfFault::Short => Some(Check::Short),
        ElfFault::Magic => Some(Check::Magic),
        ElfFault::Class => Some(Check::Class),
        ElfFault::Kind => Some(Check::Kind),
        ElfFault::Machine => Some(Check::Machine),
        ElfFault::Compressed => Some(Check::Compressed),
        ElfFault::Headers => Some(Check::Headers),
        ElfFault::Dynamic => Some(Check::Dynamic),
        ElfFault::NoLoad => Some(Check::NoLoad),
        ElfFault::TooManyLoads => Some(Check::TooManyLoads),
        ElfFault::Range => Some(Check::Range),
        ElfFault::WritableCode => Some(Check::WritableCode),
        ElfFault::Overlap => Some(Check::Overlap),
        ElfFault::TooLarge => Some(Check::TooLarge),
        ElfFault::EntryOutside => Some(Check::EntryOutside),
        ElfFault::Memory => None,
    }
}

/// The image that a program's bytes give.
fn image_in<'a>(alloc: Global, bytes: &[u8]) -> Result<Image, Stop<'a>>
    requires { length bytes.now ≤ MOST_PROGRAM_BYTES }
    ensures found { IfOk result (IsProgram bytes.now) }
    ensures refused { IfErr result (StopsBy (NoProgram bytes.now)) }
    ensures no_fault { result ≢ Err Stop.Device }
{
    match Image::read(alloc, bytes) {
        Ok(image) => Ok(image),
        Err(fault) => match check_of(fault) {
            Some(check) => Err(Stop::Refused(Refusal::BadElf(check_name(check)))),
            None => Err(Stop::Memory),
        },
    }
}

/// The valid log that bytes spell.
fn log_in<'a>(alloc: Global, bytes: &[u8]) -> Result<Log, Stop<'a>>
    ensures found { IfOk result (IsRecording bytes.now) }
    ensures refused { IfErr result (StopsBy (NoRecording bytes.now)) }
    ensures no_fault { result ≢ Err Stop.Device }
{
    match read_log(alloc, bytes) {
        Ok(log) => Ok(log),
        Err(LogFault::Bad { offset }) => Err(Stop::Refused(Refusal::BadLog(offset))),
        Err(LogFault::TooLarge) => Err(Stop::Refused(Refusal::LogTooLarge)),
        Err(LogFault::Memory) => Err(Stop::Memory),
    }
}

/// The schedule of which bytes are the text.
fn schedule_in<'a>(alloc: Global, text: &[u8]) -> Result<Schedule, Stop<'a>>
    requires { length text.now ≤ MOST_LOG_BYTES }
    ensures found { IfOk result (IsScheduleFile text.now) }
    ensures refused { IfErr result (StopsBy (NoScheduleFile text.now)) }
    ensures no_fault { result ≢ Err Stop.Device }
{
    match read_schedule(alloc, text) {
        Ok(schedule) => Ok(schedule),
        Err(SchedFault::Bad { line }) => Err(Stop::Refused(Refusal::BadLine(line))),
        Err(SchedFault::Memory) => Err(Stop::Memory),
    }
}

/// The program that an assembly text becomes.
fn program_in<'a>(alloc: Global, text: &[u8]) -> Result<Bytes, Stop<'a>>
    requires { length text.now ≤ MOST_TEXT_BYTES }
    ensures found { IfOk result (IsSource text.now) }
    ensures refused { IfErr result (StopsBy (NoSource text.now)) }
    ensures no_fault { result ≢ Err Stop.Device }
{
    match assemble(alloc, text) {
        Ok(file) => Ok(Bytes::of(file)),
        Err(AsmFault::BadLine { line }) => Err(Stop::Refused(Refusal::BadLine(line))),
        Err(AsmFault::UnknownName { line }) => Err(Stop::Refused(Refusal::UnknownName(line))),
        Err(AsmFault::TooLarge) => Err(Stop::Refused(Refusal::TextTooLarge)),
        Err(AsmFault::Memory) => Err(Stop::Memory),
    }
}

/// The image of a program's file.
pub fn load_image<'a, F: Files>(
    alloc: Global,
    files: &mut F,
    name: &'a str,
) -> Result<Image, Stop<'a>>
    ensures { Reads (Gives IsProgram (F.held files.old) name.now) (Refuses NoProgram (F.held files.old) name.now)
        result (F.held files.old) (F.held files.new) (F.faults files.old) (F.faults files.new) }
{
    let bytes = load(
        alloc,
        files,
        name,
        MOST_PROGRAM_BYTES,
        Refusal::BadElf("TooLarge"),
    )?;
    image_in(alloc, bytes.as_slice())
}

/// The log of a log's file.
fn load_log<'a, F: Files>(alloc: Global, files: &mut F, name: &'a str) -> Result<Log, Stop<'a>>
    ensures { Reads (Gives IsRecording (F.held files.old) name.now) (Refuses NoRecording (F.held files.old) name.now)
        result (F.held files.old) (F.held files.new) (F.faults files.old) (F.faults files.new) }
{
    let bytes = load(alloc, files, name, MOST_LOG_BYTES, Refusal::LogTooLarge)?;
    log_in(alloc, bytes.as_slice())
}

/// A program and a log, read one after the other.
#[derive(Debug, Drop)]
pub struct Run {
    pub image: Image,
    pub log: Log,
}

/// The image of a program's file, and then the log of a log's file.
pub fn load_run<'a, F: Files>(
    alloc: Global,
    files: &mut F,
    elf: &'a str,
    log: &'a str,
) -> Result<Run, Stop<'a>>
    ensures run { Reads (λ run. GivesRun (F.held files.old) elf.now log.now run.image run.log) (RefusesRun (F.held files.old) elf.now log.now)
        result (F.held files.old) (F.held files.new) (F.faults files.old) (F.faults files.new) }
    ensures valid { IfOk result (λ run. IsValid run.log) }
{
    let image = load_image(alloc, files, elf)?;
    let log = load_log(alloc, files, log)?;
    Ok(Run { image, log })
}

/// The schedule whose text a file holds.
pub fn load_schedule<'a, F: Files>(
    alloc: Global,
    files: &mut F,
    name: &'a str,
) -> Result<Schedule, Stop<'a>>
    ensures { Reads (Gives IsScheduleFile (F.held files.old) name.now) (Refuses NoScheduleFile (F.held files.old) name.now)
        result (F.held files.old) (F.held files.new) (F.faults files.old) (F.faults files.new) }
{
    let text = load(alloc, files, name, MOST_LOG_BYTES, Refusal::TextTooLarge)?;
    schedule_in(alloc, text.as_slice())
}

/// The input in a file.
fn load_input<'a, F: Files>(
    alloc: Global,
    files: &mut F,
    name: &'a str,
) -> Result<Vec<u8>, Stop<'a>>
    ensures { Reads (λ tape. Gives IsInput (F.held files.old) name.now tape.items) (Refuses NoInput (F.held files.old) name.now)
        result (F.held files.old) (F.held files.new) (F.faults files.old) (F.faults files.new) }
{
    let bytes = load(alloc, files, name, MOST_TEXT_BYTES, Refusal::InputTooLarge)?;
    Ok(bytes.into_vec())
}

/// The input in a file, empty where none is named.
pub fn load_tape<'a, F: Files>(
    alloc: Global,
    files: &mut F,
    input: &'a Option<WordText>,
) -> Result<Vec<u8>, Stop<'a>>
    ensures { Reads (λ tape. GivesTape (F.held files.old) input.now tape.items) (RefusesTape (F.held files.old) input.now)
        result (F.held files.old) (F.held files.new) (F.faults files.old) (F.faults files.new) }
{
    match input {
        None => Ok(Vec::new(alloc)),
        Some(name) => load_input(alloc, files, name.as_str()),
    }
}

/// The program that the text of a file becomes.
pub fn load_source<'a, F: Files>(
    alloc: Global,
    files: &mut F,
    name: &'a str,
) -> Result<Bytes, Stop<'a>>
    ensures { Reads (Gives IsSource (F.held files.old) name.now) (Refuses NoSource (F.held files.old) name.now)
        result (F.held files.old) (F.held files.new) (F.faults files.old) (F.faults files.new) }
{
    let text = load(alloc, files, name, MOST_TEXT_BYTES, Refusal::TextTooLarge)?;
    program_in(alloc, text.as_slice())
}
