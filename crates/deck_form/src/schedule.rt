//! Schedules: the line that is printed of one, and the reading of such a line.

ghost use Rattle.std.specs.Prelude.{◌≡◌, Ok, IfOk, IfErr, if◌then◌else◌};
ghost use Rattle.std.specs.List.{slice_split};
ghost use Rattle.vfs_model.specs.Manifest.{is_space};
ghost use Rattle.vfs_model.specs.Schedule.{entries_from, schedule_entries, schedule_line};
ghost use Rattle.vfs_model.specs.Script.{but_last, is_ended};
ghost use Rattle.deck_form.specs.Reading.{StopsReadingSchedule};

use crate::entry::push_entry;
use std::alloc::Global;
use thiserror::Error;
use vfs_base::{Bytes, Entry, List, NoMemory};

/// Why no schedule was read.
#[derive(Clone, Copy, Debug, PartialEq, Eq, Error)]
pub enum ScheduleFault {
    /// This entry, counted from 0, is the first that is outside the form of a schedule. A line that
    /// doesn't begin with `#` has its fault at entry 0.
    #[error("entry {at} of the schedule is not in its form")]
    BadEntry { at: u64 },
    /// No memory for the entries.
    #[error("no memory")]
    NoMemory,
}

impl From<NoMemory> for ScheduleFault {
    ghost use Rattle.deck_form.specs.declared.schedule.ScheduleFault.TheVariants.{NoMemory as WantsMemory};

    ghost from_gives = { λ _ fault. fault ≡ WantsMemory };

    fn from(_: NoMemory) -> ScheduleFault {
        ScheduleFault::NoMemory
    }
}

/// The line that shows the entries: `#`, then a space and the entry for each, then a line feed.
pub fn print_schedule(alloc: Global, entries: &[Entry]) -> Result<Bytes, NoMemory>
    ensures { IfOk result (λ line. line ≡ schedule_line entries.now) }
{
    let mut line = Bytes::new(alloc);
    line.push(b'#')?;
    for entry in entries {
        line.push(b' ')?;
        entry.push_to(&mut line)?;
    }
    line.push(b'\n')?;
    Ok(line)
}

/// The entries that the line shows, with its line feed or without it.
///
/// # Errors
/// `BadEntry` where the line is no schedule, with the first entry at fault, and `NoMemory`.
#[tactic(auto, unfolding(vfs_model::specs::Schedule::schedule_entries))]
pub fn read_schedule(alloc: Global, line: &[u8]) -> Result<List<Entry>, ScheduleFault>
    ensures entries { IfOk result (λ entries. schedule_entries line.now ≡ Ok entries) }
    ensures fault { IfErr result (StopsReadingSchedule (schedule_entries line.now)) }
{
    match without_feed(line) {
        [b'#'] => Ok(List::new(alloc)),
        [b'#', b' ', texts @ ..] => read_entries(alloc, texts),
        _ => Err(ScheduleFault::BadEntry { at: 0 }),
    }
}

fn without_feed(line: &[u8]) -> &[u8]
    ensures { result.now ≡ if is_ended line.now then but_last line.now else line.now }
{
    match line {
        [text @ .., b'\n'] => text,
        _ => line,
    }
}

// The entries that the texts between the spaces are.
fn read_entries(alloc: Global, texts: &[u8]) -> Result<List<Entry>, ScheduleFault>
    ensures entries { IfOk result (λ entries.
        entries_from 0 (slice_split is_space texts.now) ≡ Ok entries) }
    ensures fault { IfErr result
        (StopsReadingSchedule (entries_from 0 (slice_split is_space texts.now))) }
{
    let mut entries = List::new(alloc);
    for text in texts.split(|&byte| byte == b' ') {
        if !push_entry(&mut entries, text)? {
            return Err(ScheduleFault::BadEntry {
                at: entries.len() as u64,
            });
        }
    }
    Ok(entries)
}
