//! A shell from its first line to its end.

ghost use Rattle.std.specs.Prelude.{◌≡◌, ◌≢◌, IfNone};
ghost use Rattle.std.specs.Io.KnownBytes.{IsAtEnd};
ghost use Rattle.dfs_run.specs.Causes.{HasCause, note_of};
ghost use Rattle.dfs_run.specs.Ending.{ClosesFor, EndsServed, ShellEnds, StopsFor, WritesLine};
ghost use Rattle.dfs_run.specs.Opening.{IsTold};
ghost use Rattle.dfs_run.specs.Report.{status_of};
ghost use Rattle.dfs_run.specs.Run.{run_of, streams};

use crate::ending::{give_up, write_text};
use crate::line_stop::LineStop;
use crate::opening::open_shell;
use crate::report::{FaultNote, Report};
use crate::serving::serve_lines;
use deck_form::print_schedule;
use dfs_input::LineReader;
use script_stage::{Ended, Stage};
use std::alloc::Global;
use step_world::StepWorld;
use vfs_base::{Describe, List};
use vfs_outside::{Sink, Source};

/// Runs the lines of the source in a shell of its own.
pub fn run_shell<S: Source, K: Sink>(
    alloc: Global,
    describe: &Describe,
    source: &mut S,
    sink: &mut K,
) -> Report
    requires { IsTold describe.now }
    ensures ends { ShellEnds (run_of (streams (S.left source.old) (S.left source.new) (K.written sink.old) (K.written sink.new)) describe.now result) }
    ensures status { result.status ≡ status_of result.fault }
    ensures over { IfNone result.fault (IsAtEnd (S.left source.new)) }
    ensures cause { HasCause (S.faults source.old) (S.faults source.new) (K.faults sink.old) (K.faults sink.new) result.fault }
{
    match open_shell(alloc, describe) {
        Ok(stage) => {
            let (ended, fault) = serve(alloc, stage, source, sink);
            Report::of(ended, fault)
        }
        Err(_) => Report::new(List::new(alloc), Some(FaultNote::NoMemory)),
    }
}

// Serves the lines of the source on a new stage.
fn serve<W: StepWorld, S: Source, K: Sink>(
    alloc: Global,
    mut stage: Stage<W>,
    source: &mut S,
    sink: &mut K,
) -> (Ended<W>, Option<FaultNote>)
    ensures ends { EndsServed stage (streams (S.left source.old) (S.left source.new) (K.written sink.old) (K.written sink.new)) result.0.schedule (W.seen result.0.world) result.1 }
    ensures over { IfNone result.1 (IsAtEnd (S.left source.new)) }
    ensures cause { HasCause (S.faults source.old) (S.faults source.new) (K.faults sink.old) (K.faults sink.new) result.1 }
{
    let mut reader = LineReader::new();
    match serve_lines(alloc, &mut reader, &mut stage, source, sink) {
        Ok(()) => close(alloc, stage, sink),
        Err(LineStop::NoMemory) => give_up(alloc, stage),
        Err(stop) => end_early(alloc, stage, stop),
    }
}

// Takes the end, and writes the schedule's line.
#[tactic(auto, using(crate::proofs::EndingLemmas::closes_so, crate::proofs::StandingLemmas::leaves_open))]
fn close<W: StepWorld, K: Sink>(
    alloc: Global,
    mut stage: Stage<W>,
    sink: &mut K,
) -> (Ended<W>, Option<FaultNote>)
    ensures closes { ClosesFor result.1 stage result.0.schedule (W.seen result.0.world).faults (K.written sink.old) (K.written sink.new) }
    ensures cause { HasCause 0 0 (K.faults sink.old) (K.faults sink.new) result.1 }
{
    match stage.close(alloc) {
        Ok(_) => write_end(alloc, stage, sink),
        Err(_) => give_up(alloc, stage),
    }
}

// Writes the schedule's line, of a stage whose end was taken. Where there is no memory for it, the schedule is told
// without the exits.
fn write_end<W: StepWorld, K: Sink>(
    alloc: Global,
    stage: Stage<W>,
    sink: &mut K,
) -> (Ended<W>, Option<FaultNote>)
    ensures written { WritesLine result.1 stage result.0.schedule (K.written sink.old) (K.written sink.new) }
    ensures world { W.seen result.0.world ≡ stage.view }
    ensures cause { HasCause 0 0 (K.faults sink.old) (K.faults sink.new) result.1 }
{
    match print_schedule(alloc, stage.schedule()) {
        Ok(line) => {
            let fault = write_text(sink, line.as_slice());
            (stage.finish(), fault)
        }
        Err(_) => (stage.cut_off(), Some(FaultNote::NoMemory)),
    }
}

// Takes the end of a shell that serves no more lines. Nothing is written any more: all blocks are.
fn end_early<W: StepWorld>(
    alloc: Global,
    mut stage: Stage<W>,
    stop: LineStop,
) -> (Ended<W>, Option<FaultNote>)
    requires { stop ≢ LineStop.NoMemory }
    ensures stops { StopsFor (note_of stop) result.1 stage result.0.schedule (W.seen result.0.world).faults }
{
    match stage.close(alloc) {
        Ok(_) => (stage.finish(), Some(stop.note())),
        Err(_) => give_up(alloc, stage),
    }
}
