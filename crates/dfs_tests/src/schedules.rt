//! Schedules of a script: what it shows under each, or why it shows nothing.

use crate::plainly::shown_plainly;
use case_forms::{CaseFault, Section, case_text, push_section, push_text, section_of, tell_block};
use case_worlds::{Setting, numbered};
use deck_form::{ScheduleFault, read_schedule};
use std::alloc::Global;
use vfs_base::Bytes;

/// Makes the case of what its schedules show.
pub fn play_schedules(alloc: Global, text: &str, made: &mut Bytes) -> Result<(), CaseFault> {
    let mut setting = Setting::new(alloc);
    play_parts(alloc, text, made, &mut setting)
}

fn play_parts(
    alloc: Global,
    text: &str,
    made: &mut Bytes,
    setting: &mut Setting,
) -> Result<(), CaseFault> {
    for part in case_text(text)?.split("\n== ") {
        play_section(alloc, section_of(part), made, setting)?;
    }
    Ok(())
}

fn play_section(
    alloc: Global,
    section: Section,
    made: &mut Bytes,
    setting: &mut Setting,
) -> Result<(), CaseFault> {
    if setting.set(alloc, section)? {
        return Ok(push_section(made, section)?);
    }
    if section.word != "schedule" {
        return Err(CaseFault::Section);
    }
    let shown = shown_under(alloc, setting, section.rest)?;
    tell_block(made, alloc, section, shown.as_slice())
}

fn shown_under(alloc: Global, setting: &Setting, line: &str) -> Result<Bytes, CaseFault> {
    let mut bytes = Bytes::new(alloc);
    push_text(&mut bytes, line)?;
    match read_schedule(alloc, bytes.as_slice()) {
        Ok(entries) => shown_plainly(alloc, &setting.deck, &setting.describe, entries.as_slice()),
        Err(ScheduleFault::BadEntry { at }) => numbered(alloc, b"bad entry ", at),
        Err(ScheduleFault::NoMemory) => Err(CaseFault::NoMemory),
    }
}
