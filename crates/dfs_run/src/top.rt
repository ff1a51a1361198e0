//! The top call.

ghost use Rattle.std.specs.Prelude.{◌≡◌, ◌≢◌, ◌⊎◌, [], IfNone, None, Some, map, string_bytes, true};
ghost use Rattle.std.specs.Io.KnownBytes.{IsAtEnd};
ghost use Rattle.vfs_model.specs.Tally.{is_faultless};
ghost use Rattle.vfs_outside.specs.Causes.{Rose};
ghost use Rattle.vfs_outside.specs.Devices.{describe_of};
ghost use Rattle.dfs_words.specs.Words.{job_of};
ghost use Rattle.dfs_words.specs.declared.mode.Job.TheVariants.{Replay};
ghost use Rattle.dfs_run.specs.Causes.{HasCause};
ghost use Rattle.dfs_run.specs.Headline.{EndsAsAsked, EndsClear, HasForm, NamesFirstBad, ShowsAll, ShowsInForm, ShowsRead, ShowsSome};
ghost use Rattle.dfs_run.specs.Replaying.{JobEnds, LeavesSink, reads_all};
ghost use Rattle.dfs_run.specs.Report.{status_of};
ghost use Rattle.dfs_run.specs.Run.{ReadsThrough, run_of, streams};

use crate::replay::run_replay;
use crate::report::{FaultNote, Report};
use crate::shell::run_shell;
use dfs_words::{Job, ModeFault, mode_of};
use std::alloc::Global;
use vfs_base::List;
use vfs_outside::{Devices, Sink, Source};

/// Runs the program on its words, those after its name: it reads the source, writes the sink, and
/// reports how it ended. It waits for nobody and returns, whatever the source and the sink do.
///
/// `shell` takes the source line by line: each line is run in the first session, and its block written, before
/// the next is run. `replay` reads a whole script of up to eight sessions, runs it, and then writes
/// what each session is shown.
///
/// | Status | Comes |
/// |---|---|
/// | 0 | the source was read to its end, and what was written is the transcript, with the schedule's line |
/// | 1 | at any time, for want of memory; the schedule is then told without the steps by which the sessions left |
/// | 2 | exactly where the words are outside the grammar, want of memory apart; nothing is read or written |
/// | 3 | exactly where that line of the input is the first outside the form; a shell has shown the lines before it |
/// | 4 | only where the source failed; a shell has shown all lines that were read whole, and these were in their form |
/// | 5 | only where the sink failed |
/// | 6 | only where a volume failed in the end: never yet, since no device can be handed in |
///
/// No device may be handed in yet.
///
/// The status is that of the first cause met, and after 3 and 4 nothing more is written.
///
/// What is said of the input holds of the bytes that the source tells, as one in memory does; of a source that tells
/// nothing it holds of some input. What is said of the output is said of a sink that tells what it holds. What is said
/// of the schedule, of causes and of counts holds always.
#[tactic(auto, using(crate::proofs::TopLemmas::job_shows, crate::proofs::TopLemmas::job_front, crate::proofs::TopLemmas::job_before_bad_line, crate::proofs::TopLemmas::job_before_fault, crate::proofs::TopLemmas::job_bad_deck, crate::proofs::TopLemmas::job_form, crate::proofs::TopLemmas::job_by_form, crate::proofs::TopLemmas::job_ends_clear, crate::proofs::TopLemmas::job_faultless, crate::proofs::TopLemmas::job_quiet_source, crate::proofs::TopLemmas::job_quiet_sink, crate::proofs::TopLemmas::job_reads_through, crate::proofs::TopLemmas::job_read_fault, crate::proofs::TopLemmas::job_write_fault, crate::proofs::TopLemmas::no_device_fault, crate::proofs::TopLemmas::no_usage))]
pub fn top_alone<S: Source, K: Sink>(
    alloc: Global,
    words: &[String],
    source: &mut S,
    sink: &mut K,
    devices: &mut Devices,
) -> Report
    requires bare { devices.old ≡ record { volumes = []; chars = [] } }

    // All is shown.
    ensures shown { result.status ≡ 0 → ShowsAll (job_of (map string_bytes words.now)) (run_of (streams (S.left source.old) (S.left source.new) (K.written sink.old) (K.written sink.new)) (describe_of devices.old) result) }
    ensures read_to_end { result.status ≡ 0 → IsAtEnd (S.left source.new) }
    ensures end { result.status ≡ 0 → EndsClear result.schedule }

    // What is shown where not all is.
    ensures front { ShowsSome (job_of (map string_bytes words.now)) (run_of (streams (S.left source.old) (S.left source.new) (K.written sink.old) (K.written sink.new)) (describe_of devices.old) result) }
    ensures before_bad_line { result.status ≡ 3 → ShowsInForm (job_of (map string_bytes words.now)) (run_of (streams (S.left source.old) (S.left source.new) (K.written sink.old) (K.written sink.new)) (describe_of devices.old) result) }
    ensures before_fault { result.status ≡ 4 → ShowsRead (job_of (map string_bytes words.now)) (run_of (streams (S.left source.old) (S.left source.new) (K.written sink.old) (K.written sink.new)) (describe_of devices.old) result) }
    ensures silent { job_of (map string_bytes words.now) ≡ None → (result.schedule ≡ []) × (source.new ≡ source.old) × (sink.new ≡ sink.old) }
    ensures untouched { job_of (map string_bytes words.now) ≡ Some Replay → LeavesSink result.fault result.schedule sink.old sink.new }

    // Each status has its cause.
    ensures usage { result.status ≡ 2 → job_of (map string_bytes words.now) ≡ None }
    ensures unread { job_of (map string_bytes words.now) ≡ None → (result.status ≡ 1) ⊎ (result.status ≡ 2) }
    ensures bad_deck { result.status ≡ 3 → NamesFirstBad (job_of (map string_bytes words.now)) (S.left source.old) result.fault }
    ensures read_fault { result.status ≡ 4 → Rose (S.faults source.old) (S.faults source.new) }
    ensures write_fault { result.status ≡ 5 → Rose (K.faults sink.old) (K.faults sink.new) }
    ensures device_fault { result.status ≢ 6 }
    ensures note { result.status ≡ status_of result.fault }

    // It is the first cause that was met.
    ensures quiet_source { result.status ≢ 1 → result.status ≢ 4 → S.faults source.new ≡ S.faults source.old }
    ensures quiet_sink { result.status ≢ 1 → result.status ≢ 5 → K.faults sink.new ≡ K.faults sink.old }
    ensures read_through { result.status ≢ 1 → result.status ≢ 4 → job_of (map string_bytes words.now) ≡ Some Replay → ReadsThrough (S.left source.old) (S.left source.new) }

    // No device failed: there is none.
    ensures faultless { is_faultless result.schedule ≡ true }

    // Where nothing failed, the program ends well, or at the line that it names, or for want of memory.
    ensures form { result.status ≡ 0 → HasForm (job_of (map string_bytes words.now)) (S.left source.old) }
    ensures complete { ¬ Rose (S.faults source.old) (S.faults source.new) → ¬ Rose (K.faults sink.old) (K.faults sink.new)
        → EndsAsAsked (job_of (map string_bytes words.now)) (S.left source.old) result }
    ensures devices { devices.new ≡ devices.old }
{
    match mode_of(alloc, words) {
        Ok(mode) => run_job(alloc, mode.job, source, sink, devices),
        Err(ModeFault::Usage) => Report::new(List::new(alloc), Some(FaultNote::Usage)),
        Err(ModeFault::NoMemory) => Report::new(List::new(alloc), Some(FaultNote::NoMemory)),
    }
}

// Runs the job that the words ask for.
#[tactic(auto, using(crate::proofs::OpeningLemmas::told_empty))]
fn run_job<S: Source, K: Sink>(
    alloc: Global,
    job: Job,
    source: &mut S,
    sink: &mut K,
    devices: &mut Devices,
) -> Report
    requires bare { devices.old ≡ record { volumes = []; chars = [] } }
    ensures ends { JobEnds job (run_of (streams (S.left source.old) (S.left source.new) (K.written sink.old) (K.written sink.new)) (describe_of devices.old) result) }
    ensures status { result.status ≡ status_of result.fault }
    ensures over { IfNone result.fault (IsAtEnd (S.left source.new)) }
    ensures through { job ≡ Replay → reads_all result.fault ≡ true → ReadsThrough (S.left source.old) (S.left source.new) }
    ensures silent { job ≡ Replay → LeavesSink result.fault result.schedule sink.old sink.new }
    ensures cause { HasCause (S.faults source.old) (S.faults source.new) (K.faults sink.old) (K.faults sink.new) result.fault }
    ensures devices { devices.new ≡ devices.old }
{
    let Ok(describe) = devices.describe() else {
        return Report::new(List::new(alloc), Some(FaultNote::NoMemory));
    };
    match job {
        Job::Shell => run_shell(alloc, &describe, source, sink),
        Job::Replay => run_replay(alloc, &describe, source, sink),
    }
}
