ghost use Rattle.std.specs.Prelude.{◌≡◌, ◌≢◌, ◌⊎◌, None, Some, IfSome, is_some};
ghost use Rattle.std.specs.Io.KnownBytes.{append_known};
ghost use Rattle.odr_io.specs.Outside.{Rose};
ghost use Rattle.odr_task.specs.Verdict.{Verdict, status_of, device_line};
ghost use Rattle.odr_task.specs.Settled.{IsCut};
ghost use Rattle.odr_top.specs.Record.{Recorded};
ghost use Rattle.odr_top.specs.Infer.{InferredRun};
ghost use Rattle.odr_top.specs.Replay.{Replayed};
ghost use Rattle.odr_top.specs.Asm.{Assembled};
ghost use Rattle.odr_top.specs.Owes.{job_in, OwesWords, IsNotBuilt};
ghost use Rattle.odr_top.specs.Answer.{KeepsInputs, Concluded, MayFinish, HasSavedWhole, CutShort};

use crate::prepare::prepare;
use odr_io::files::Files;
use odr_io::sink::Sink;
use odr_io::source::Source;
use odr_log::{one_first_bad, one_spelling};
use odr_task::settle::settle;
use odr_words::read_words;
use rv_model::law::no_difference_is_log;
use sched_text::laws::{one_first_bad_line, one_schedule_of_a_text};
use std::alloc::Global;

/// Runs the program on the words of its command line, without the program's own name, and answers its exit
/// status.
///
/// `record ELF LOG [--seed N] [--limit N] [--input FILE]` runs a program by the schedule of a seed, saves its log under
/// LOG and prints a line on it. `infer ELF LOG OUT [--steps N]` takes a program and a log of one thread. It answers 0, saves the schedule's text
/// under OUT and prints the run's line where the one schedule has the log, and 9 where it hasn't; a log of more
/// threads is answered 12. `replay ELF LOG SCHED` runs a schedule over the log's inputs and writes what the guest wrote
/// where the schedule has the log. `asm TEXT ELF` assembles a text, saves the program under ELF and prints its size.
///
/// Refusals are 2 for words that are no job, 14 where nothing is held under a name that is loaded, 3 for a file that
/// is no image, 4 for one that is no log, 5 for a text at fault, 12 for a command that is not built, 6 where a store
/// or a sink failed, and 1 for want of memory. A refusal's line goes to `err`.
pub fn odr_run<F: Files, S: Source, O: Sink, E: Sink>(
    alloc: Global,
    words: &[String],
    files: &mut F,
    commands: &mut S,
    out: &mut O,
    err: &mut E,
) -> u8
    // With status 0 of an inference the file holds a schedule whose run has exactly the log, and its line was printed.
    ensures inferred_run { result ≡ 0 → InferredRun (F.held files.old) (F.held files.new) (job_in words.now) (O.written out.old) (O.written out.new) }

    // With status 0 of an assembly the file holds the program of the text, and its line was printed.
    ensures assembled { result ≡ 0 → Assembled (F.held files.old) (F.held files.new) (job_in words.now) (O.written out.old) (O.written out.new) }

    // With status 0 of a recording the file holds exactly the log of the seeded run, and its line was printed.
    ensures recorded { result ≡ 0 → Recorded (F.held files.old) (F.held files.new) (job_in words.now) (O.written out.old) (O.written out.new) }

    // With status 0 of a replay exactly the output was written of a log that the schedule has.
    ensures replayed { result ≡ 0 → Replayed (F.held files.old) (job_in words.now) (O.written out.old) (O.written out.new) }

    // Every status but 1 and 6 is owed, its file was left and no other, exactly its lines were printed, and nothing failed.
    ensures causes { result ≢ 1 → result ≢ 6 → Concluded (F.held files.old) (F.held files.new) (job_in words.now) result (O.written out.old) (O.written out.new) (E.written err.old) (E.written err.new) }

    // Where the store tells what it holds, the owed status comes, unless 1 or 6 does.
    ensures complete { IfSome (F.held files.old) (λ held. (verdict : Verdict) → OwesWords (Some held) (job_in words.now) verdict → (result ≡ status_of verdict) ⊎ IsCut result) }
    ensures bad_words { (result ≡ 2 → job_in words.now ≡ None) × (job_in words.now ≡ None → (result ≡ 2) ⊎ IsCut result) }
    ensures no_job { job_in words.now ≡ None → (files.new ≡ files.old) × (out.new ≡ out.old) × (result ≡ 6 → Rose (E.faults err.old) (E.faults err.new)) }

    // A job that is not built is refused before anything is loaded.
    ensures not_built { IfSome (job_in words.now) (λ job. IsNotBuilt job → (files.new ≡ files.old) × (out.new ≡ out.old) × (result ≡ 6 → Rose (E.faults err.old) (E.faults err.new))) }
    ensures nothing_failed { result ≢ 1 → result ≢ 6 → (F.faults files.new ≡ F.faults files.old) × (O.faults out.new ≡ O.faults out.old) × (E.faults err.new ≡ E.faults err.old) }

    // 6 comes only where a count of faults rose, and with its line unless that failed.
    ensures device { result ≡ 6 → Rose (F.faults files.old) (F.faults files.new) ⊎ (Rose (O.faults out.old) (O.faults out.new) ⊎ Rose (E.faults err.old) (E.faults err.new)) }
    ensures device_line { result ≡ 6 → (E.written err.new ≡ append_known (E.written err.old) device_line) ⊎ Rose (E.faults err.old) (E.faults err.new) }
    ensures cut_short { IsCut result → CutShort (F.held files.old) (job_in words.now) (O.written out.old) (O.written out.new) (E.written err.old) (E.written err.new) }

    // Only the job's file may change, by a whole text unless the store failed, and before out is written.
    ensures inputs_kept { KeepsInputs (F.held files.old) (F.held files.new) (job_in words.now) }
    ensures told { is_some (F.held files.new) ≡ is_some (F.held files.old) }
    ensures files_kept { result ≢ 0 → result ≢ 1 → result ≢ 6 → F.held files.new ≡ F.held files.old }
    ensures before_save { ((F.held files.new ≡ F.held files.old) × (out.new ≡ out.old)) ⊎ MayFinish (F.held files.old) (job_in words.now) }
    ensures saved_first { (out.new ≡ out.old) ⊎ HasSavedWhole (F.held files.old) (F.held files.new) (job_in words.now) }
    ensures whole_or_kept { (Rose (F.faults files.old) (F.faults files.new) → ⊥) → (F.held files.new ≡ F.held files.old) ⊎ HasSavedWhole (F.held files.old) (F.held files.new) (job_in words.now) }

    ensures commands_kept { commands.new ≡ commands.old }
{
    let _ = commands;
    one_spelling();
    one_first_bad();
    no_difference_is_log();
    one_schedule_of_a_text();
    one_first_bad_line();
    let job = read_words(alloc, words);
    let prepared = prepare(alloc, files, words, &job);
    settle(alloc, &prepared, files, out, err)
}
