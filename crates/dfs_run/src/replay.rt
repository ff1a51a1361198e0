//! A replay: the whole script is read, then run, and then its transcript is written.

ghost use Rattle.std.specs.Prelude.{◌≡◌, true, Ok, Some, [], IfNone, IfOk, IfErr, OnOk, OnErr, IfSome};
ghost use Rattle.std.specs.Io.KnownBytes.{IsAtEnd};
ghost use Rattle.script_stage.specs.Scenes.{Script};
ghost use Rattle.script_stage.specs.Standing.{ClosesAt, StandsAt, StopsAt};
ghost use Rattle.vfs_model.specs.DeckLaws.{IsScript};
ghost use Rattle.vfs_model.specs.FaultCounts.{no_devices};
ghost use Rattle.vfs_model.specs.Turns.{script_tasks};
ghost use Rattle.dfs_run.specs.Causes.{HasCause};
ghost use Rattle.dfs_run.specs.Opening.{IsTold, plainly};
ghost use Rattle.dfs_run.specs.Replaying.{HasScriptCause, IsReadAs, IsTranscript, LeavesSink, PlaysFor, PlaysOn, ReplayEnds, StopsScript, WritesFor, reads_all};
ghost use Rattle.dfs_run.specs.Report.{status_of};
ghost use Rattle.dfs_run.specs.Run.{ReadsThrough, run_of, streams};

use crate::ending::{give_up, write_text};
use crate::opening::open_stage;
use crate::report::{FaultNote, Report};
use crate::schedule::with_line;
use crate::script_stop::ScriptStop;
use deck_form::{DeckFault, read_deck};
use dfs_input::{InputFault, read_all};
use script_stage::{Ended, Stage};
use std::alloc::Global;
use step_world::StepWorld;
use vfs_base::{Bytes, Deck, Describe, List, NoMemory};
use vfs_outside::{Sink, Source};

/// Reads the script of the source to its end, runs it, and writes its transcript.
#[tactic(auto, using(crate::proofs::ReplayLemmas::plays_told, crate::proofs::ReplayLemmas::stops_told))]
pub fn run_replay<S: Source, K: Sink>(
    alloc: Global,
    describe: &Describe,
    source: &mut S,
    sink: &mut K,
) -> Report
    requires { IsTold describe.now }
    ensures ends { ReplayEnds (run_of (streams (S.left source.old) (S.left source.new) (K.written sink.old) (K.written sink.new)) describe.now result) }
    ensures status { result.status ≡ status_of result.fault }
    ensures over { IfNone result.fault (IsAtEnd (S.left source.new)) }
    ensures through { reads_all result.fault ≡ true → ReadsThrough (S.left source.old) (S.left source.new) }
    ensures silent { LeavesSink result.fault result.schedule sink.old sink.new }
    ensures cause { HasCause (S.faults source.old) (S.faults source.new) (K.faults sink.old) (K.faults sink.new) result.fault }
{
    match read_script(alloc, source) {
        Ok(deck) => play(alloc, &deck, describe, sink),
        Err(stop) => Report::new(List::new(alloc), Some(stop.note())),
    }
}

// The script that the source is, read to its end.
#[tactic(auto, using(dfs_input::proofs::InputLemmas::known_script))]
fn read_script<S: Source>(alloc: Global, source: &mut S) -> Result<Deck, ScriptStop>
    ensures deck { IfOk result (IsReadAs (S.left source.old)) }
    ensures script { IfOk result IsScript }
    ensures end { OnOk result (IsAtEnd (S.left source.new)) }
    ensures through { OnOk result (ReadsThrough (S.left source.old) (S.left source.new)) }
    ensures stop { IfErr result (StopsScript (S.left source.old) (S.left source.new)) }
    ensures cause { HasScriptCause (S.faults source.old) (S.faults source.new) result }
{
    let bytes = match read_all(alloc, source) {
        Ok(bytes) => bytes,
        Err(InputFault::Failed) => return Err(ScriptStop::ReadFault),
        Err(InputFault::NoMemory) => return Err(ScriptStop::NoMemory),
    };
    match read_deck(alloc, bytes.as_slice()) {
        Ok(deck) => Ok(deck),
        Err(DeckFault::Line { line }) => Err(ScriptStop::BadLine { line }),
        Err(DeckFault::NoMemory) => Err(ScriptStop::NoMemory),
    }
}

// Runs a script on the plain world, and writes its transcript.
fn play<K: Sink>(alloc: Global, deck: &Deck, describe: &Describe, sink: &mut K) -> Report
    requires script { IsScript deck.now }
    requires told { IsTold describe.now }
    ensures plays { PlaysFor result.fault (plainly deck.now describe.now) result.schedule no_devices
        (K.written sink.old) (K.written sink.new) }
    ensures status { result.status ≡ status_of result.fault }
    ensures silent { LeavesSink result.fault [] sink.old sink.new }
    ensures cause { HasCause 0 0 (K.faults sink.old) (K.faults sink.new) result.fault }
{
    match open_stage(alloc, deck, describe) {
        Ok(stage) => {
            let (ended, fault) = run(alloc, stage, deck, sink);
            Report::of(ended, fault)
        }
        Err(_) => Report::new(List::new(alloc), Some(FaultNote::NoMemory)),
    }
}

// Runs a script on its stage, and writes its transcript.
#[tactic(auto, using(crate::proofs::ReplayLemmas::plays_stopped, crate::proofs::ReplayLemmas::plays_written))]
fn run<W: StepWorld, K: Sink>(
    alloc: Global,
    mut stage: Stage<W>,
    deck: &Deck,
    sink: &mut K,
) -> (Ended<W>, Option<FaultNote>)
    requires { IsScript deck.now }
    ensures plays { PlaysOn stage deck.now result.1 result.0.schedule (W.seen result.0.world) (K.written sink.old) (K.written sink.new) }
    ensures silent { LeavesSink result.1 [] sink.old sink.new }
    ensures cause { HasCause 0 0 (K.faults sink.old) (K.faults sink.new) result.1 }
{
    match play_all(alloc, &mut stage, deck) {
        Ok(()) => write_transcript(alloc, stage, deck, sink),
        Err(_) => give_up(alloc, stage),
    }
}

// Plays all acts of the script, and takes the end.
fn play_all<W: StepWorld>(alloc: Global, stage: &mut Stage<W>, deck: &Deck) -> Result<(), NoMemory>
    requires { IsScript deck.now }
    ensures ok { OnOk result ((script : Script) → script.deck ≡ deck.now →
        StandsAt stage.old script (script_tasks script.deck) [] → ClosesAt stage.new script []) }
    ensures err { OnErr result ((script : Script) → script.deck ≡ deck.now →
        StandsAt stage.old script (script_tasks script.deck) [] → StopsAt stage.new script []) }
{
    for act in deck.acts.as_slice() {
        stage.play(alloc, act)?;
    }
    stage.close(alloc)?;
    Ok(())
}

// Writes the transcript of a stage whose end was taken. Where there is no memory for it, the schedule is told without
// the exits.
fn write_transcript<W: StepWorld, K: Sink>(
    alloc: Global,
    stage: Stage<W>,
    deck: &Deck,
    sink: &mut K,
) -> (Ended<W>, Option<FaultNote>)
    ensures writes { WritesFor result.1 deck.now stage result.0.schedule (K.written sink.old) (K.written sink.new) }
    ensures world { W.seen result.0.world ≡ stage.view }
    ensures silent { LeavesSink result.1 [] sink.old sink.new }
    ensures cause { HasCause 0 0 (K.faults sink.old) (K.faults sink.new) result.1 }
{
    match transcript(alloc, &stage, deck) {
        Ok(text) => {
            let fault = write_text(sink, text.as_slice());
            (stage.finish(), fault)
        }
        Err(_) => (stage.cut_off(), Some(FaultNote::NoMemory)),
    }
}

// The transcript of a stage whose end was taken.
fn transcript<W: StepWorld>(alloc: Global, stage: &Stage<W>, deck: &Deck) -> Result<Bytes, NoMemory>
    ensures { IfOk result (IsTranscript stage.now deck.now) }
{
    let mut text = Bytes::new(alloc);
    stage.push_sessions(&mut text, deck.acts.as_slice())?;
    with_line(alloc, text, stage.schedule())
}
