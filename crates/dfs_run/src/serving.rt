//! Lines are read, run and shown, one after the other.

ghost use Rattle.std.specs.Prelude.{◌≡◌, ◌≤◌, ◌<◌, ◌+◌, IfOk, IfErr, OnOk, OnErr, IfSome, IfNone, true};
ghost use Rattle.std.specs.Bool.{OnFalse, OnTrue};
ghost use Rattle.std.specs.Io.KnownBytes.{IsAtEnd};
ghost use Rattle.dfs_input.specs.LineReader.{ahead, ReadsLine, ReadsEnd};
ghost use Rattle.dfs_run.specs.Causes.{HasLineCause};
ghost use Rattle.dfs_run.specs.Serving.{moment_of, GivesUp, KnowsEnd, RunsLine, Serves};
ghost use Rattle.dfs_run.specs.Stopping.{ServesAll, Stops, StopsAtLine, StopsPosting, WritesBlock};

use crate::line_stop::LineStop;
use crate::writing::write_all;
use dfs_input::{LineReader, ReadStop};
use script_stage::Stage;
use std::alloc::Global;
use step_world::StepWorld;
use vfs_base::{Bytes, NoMemory, SessionId};
use vfs_outside::{Sink, Source};

/// Serves the lines of the source to its end: each is read, run, and its block written, before the
/// next is awaited.
#[tactic(auto, using(crate::proofs::LineLemmas::more_lines, crate::proofs::LineLemmas::serves_all))]
pub fn serve_lines<W: StepWorld, S: Source, K: Sink>(
    alloc: Global,
    reader: &mut LineReader,
    stage: &mut Stage<W>,
    source: &mut S,
    sink: &mut K,
) -> Result<(), LineStop>
    ensures ok { OnOk result (ServesAll (moment_of reader.old stage.old (S.left source.old) (K.written sink.old)) stage.new (K.written sink.new)) }
    ensures end { KnowsEnd reader.old (S.left source.old) → OnOk result (IsAtEnd (S.left source.new)) }
    ensures stop { IfErr result (Stops (moment_of reader.old stage.old (S.left source.old) (K.written sink.old)) stage.new (K.written sink.new) (S.left source.new)) }
    ensures cause { HasLineCause (S.faults source.old) (S.faults source.new) (K.faults sink.old) (K.faults sink.new) result }
{
    'lines: loop {
        match serve_line(alloc, reader, stage, source, sink) {
            Ok(true) => {}
            Ok(false) => return Ok(()),
            Err(stop) => return Err(stop),
        }
    }
}

// Serves the next line; false at the end of the input.
#[tactic(auto, using(crate::proofs::LineLemmas::line_served, crate::proofs::LineLemmas::reading_stopped, crate::proofs::LineLemmas::posting_stopped))]
fn serve_line<W: StepWorld, S: Source, K: Sink>(
    alloc: Global,
    reader: &mut LineReader,
    stage: &mut Stage<W>,
    source: &mut S,
    sink: &mut K,
) -> Result<bool, LineStop>
    ensures more { IfOk result (λ more. OnTrue more (Serves
        (moment_of reader.old stage.old (S.left source.old) (K.written sink.old))
        (moment_of reader.new stage.new (S.left source.new) (K.written sink.new)))) }
    ensures over { IfOk result (λ more. OnFalse more ((stage.new ≡ stage.old) × (sink.new ≡ sink.old)
        × IsAtEnd (ahead reader.old (S.left source.old)) × (reader.new.at_end ≡ true))) }
    ensures knows { KnowsEnd reader.old (S.left source.old) → KnowsEnd reader.new (S.left source.new) }
    ensures grows { IfOk result (λ more. OnTrue more ((reader.old.size < reader.new.size) × (reader.new.size ≤ 16777216))) }
    ensures stop { IfErr result (Stops (moment_of reader.old stage.old (S.left source.old) (K.written sink.old)) stage.new (K.written sink.new) (S.left source.new)) }
    ensures cause { HasLineCause (S.faults source.old) (S.faults source.new) (K.faults sink.old) (K.faults sink.new) result }
{
    match next_line(alloc, reader, source) {
        Err(stop) => Err(stop),
        Ok(None) => Ok(false),
        Ok(Some(line)) => match post_line(alloc, stage, sink, line.as_slice()) {
            Err(stop) => Err(stop),
            Ok(()) => Ok(true),
        },
    }
}

// The next line of the source, with a shell's words for why none came.
fn next_line<S: Source>(
    alloc: Global,
    reader: &mut LineReader,
    source: &mut S,
) -> Result<Option<Bytes>, LineStop>
    ensures line { IfOk result (λ found. IfSome found (ReadsLine reader.old reader.new (S.left source.old) (S.left source.new))) }
    ensures end { IfOk result (λ found. IfNone found (ReadsEnd reader.old reader.new (S.left source.old))) }
    ensures at_end { reader.old.at_end ≡ true → reader.new.at_end ≡ true }
    ensures knows { KnowsEnd reader.old (S.left source.old) → KnowsEnd reader.new (S.left source.new) }
    ensures stop { IfErr result (StopsAtLine reader.old reader.new (S.left source.old) (S.left source.new)) }
    ensures cause { HasLineCause (S.faults source.old) (S.faults source.new) 0 0 result }
{
    match reader.next_line(alloc, source) {
        Ok(found) => Ok(found),
        Err(ReadStop::NoMemory) => Err(LineStop::NoMemory),
        Err(ReadStop::BadLine) => Err(LineStop::BadLine {
            line: reader.number() + 1,
        }),
        Err(ReadStop::Failed) => Err(LineStop::ReadFault),
    }
}

// Runs the line, and writes its block.
fn post_line<W: StepWorld, K: Sink>(
    alloc: Global,
    stage: &mut Stage<W>,
    sink: &mut K,
    line: &[u8],
) -> Result<(), LineStop>
    ensures ok { OnOk result (WritesBlock stage.old stage.new (K.written sink.old) (K.written sink.new) line.now) }
    ensures stop { IfErr result (StopsPosting stage.old stage.new (K.written sink.old) (K.written sink.new) line.now) }
    ensures cause { HasLineCause 0 0 (K.faults sink.old) (K.faults sink.new) result }
{
    let Ok(block) = run_line(alloc, stage, line) else {
        return Err(LineStop::NoMemory);
    };
    match write_all(sink, block.as_slice()) {
        Ok(()) => Ok(()),
        Err(_) => Err(LineStop::WriteFault),
    }
}

// Runs the line in the first session to its end, and answers its block.
#[tactic(auto, using(crate::proofs::StandingLemmas::runs_line, crate::proofs::StandingLemmas::gives_up))]
fn run_line<W: StepWorld>(
    alloc: Global,
    stage: &mut Stage<W>,
    line: &[u8],
) -> Result<Bytes, NoMemory>
    ensures ok { IfOk result (RunsLine stage.old stage.new line.now) }
    ensures err { OnErr result (GivesUp stage.old stage.new line.now) }
{
    stage.run_line(alloc, SessionId::FIRST, line)?;
    Ok(stage.hand_out())
}
