//! The schedule's line behind a text.

ghost use Rattle.std.specs.Prelude.{◌≡◌, ◌++◌, IfOk};
ghost use Rattle.vfs_model.specs.Schedule.{schedule_line};

use deck_form::print_schedule;
use std::alloc::Global;
use vfs_base::{Bytes, Entry, NoMemory};

/// The text, and the schedule's line behind it.
pub fn with_line(alloc: Global, mut text: Bytes, schedule: &[Entry]) -> Result<Bytes, NoMemory>
    ensures { IfOk result (λ whole. whole ≡ text ++ schedule_line schedule.now) }
{
    let line = print_schedule(alloc, schedule)?;
    text.extend_from_slice(line.as_slice())?;
    Ok(text)
}
