//! A whole script under a schedule.

ghost use Rattle.std.specs.Prelude.{◌≡◌, IfOk, IfErr};
ghost use Rattle.plain_steps.specs.Opening.{HasFewCellsEach};
ghost use Rattle.vfs_model.specs.ScriptRun.{RunState};
ghost use Rattle.vfs_plain.specs.PlainText.{IsPlainText, LacksText};
ghost use Rattle.vfs_plain.specs.Stages.{ShowsAll, StandsAt, TakesAll, whole_text};

use crate::sessions_text::push_sessions;
use crate::stage::Stage;
use deck_form::print_schedule;
use plain_steps::{PlainFault, PlainWorld};
use std::alloc::Global;
use vfs_base::{Bytes, Deck, Describe, Entry, NoMemory};

/// What the sessions of a script are shown under a schedule, up to and with the schedule's line: for
/// each session that the script posts to, by number, the line `[k]` and its blocks. Nothing is asked
/// of the order in which the script's lines call for steps. A volume has at most 1024 cells.
///
/// # Errors
/// `BadRom` with the first rom, counted from 0, whose manifest is not in its form; else `Untold`
/// where a character device does not tell its input; else `NoSchedule` with the place, counted from
/// 0, of the first entry that can't be taken, or with the number of entries where they are not whole;
/// `NoMemory` at any time.
pub fn plain_run(
    alloc: Global,
    deck: &Deck,
    describe: &Describe,
    schedule: &[Entry],
) -> Result<Bytes, PlainFault>
    requires { HasFewCellsEach describe.now }
    ensures text { IfOk result (IsPlainText deck.now describe.now schedule.now) }
    ensures fault { IfErr result (LacksText deck.now describe.now schedule.now) }
{
    let world = PlainWorld::open(alloc, deck, describe)?;
    let mut stage = Stage::new(alloc, deck, world)?;
    play(alloc, &mut stage, deck, schedule)
}

// Takes all entries, and tells what is shown then.
fn play(
    alloc: Global,
    stage: &mut Stage,
    deck: &Deck,
    schedule: &[Entry],
) -> Result<Bytes, PlainFault>
    ensures { (s : RunState) → StandsAt stage.old deck.now.acts s → ShowsAll stage.new deck.now s schedule.now result }
{
    take_all(alloc, stage, deck, schedule)?;
    let text = shown_text(alloc, stage, deck, schedule)?;
    Ok(text)
}

// What the sessions show, and the schedule's line.
fn shown_text(
    alloc: Global,
    stage: &Stage,
    deck: &Deck,
    schedule: &[Entry],
) -> Result<Bytes, NoMemory>
    ensures { IfOk result (λ text. text ≡ whole_text deck.now.acts stage.now schedule.now) }
{
    let mut text = Bytes::new(alloc);
    push_sessions(&mut text, deck.acts.as_slice(), stage.sessions())?;
    let line = print_schedule(alloc, schedule)?;
    text.extend_from_slice(line.as_slice())?;
    Ok(text)
}

// Takes all entries, the last of which is the end.
fn take_all(
    alloc: Global,
    stage: &mut Stage,
    deck: &Deck,
    schedule: &[Entry],
) -> Result<(), PlainFault>
    ensures taken { (s : RunState) → StandsAt stage.old deck.now.acts s → TakesAll stage.new deck.now s schedule.now result }
{
    for (place, entry) in schedule.iter().enumerate() {
        if !stage.take(alloc, deck, entry)? {
            return Err(PlainFault::NoSchedule { at: place as u64 });
        }
    }
    if !stage.is_over {
        return Err(PlainFault::NoSchedule {
            at: schedule.len() as u64,
        });
    }
    Ok(())
}
