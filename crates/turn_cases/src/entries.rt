//! The entries of histories beside the calls that were made.

use crate::desks::Calls;
use crate::log::{Log, log_of};
use crate::wrong::Wrong;
use std::alloc::Global;
use turn_table::Held;
use vfs_base::NoMemory;

// The stamps of the pass's entries, in the order of the turns.
fn stamps_by(alloc: Global, log: &Log, pass: u32) -> Result<Vec<u64>, NoMemory> {
    let mut stamps = Vec::new(alloc);
    for turn in &log.turns {
        if let Some(entry) = turn
            && entry.pass == pass
        {
            stamps.push(entry.stamp)?;
        }
    }
    Ok(stamps)
}

// The stamps of the calls on this part, in the order of the calls.
fn stamps_on(alloc: Global, calls: &[(u16, u64)], part: u16) -> Result<Vec<u64>, NoMemory> {
    let mut stamps = Vec::new(alloc);
    for call in calls {
        if call.0 == part {
            stamps.push(call.1)?;
        }
    }
    Ok(stamps)
}

// Each stamp is greater than those before it.
fn rises(log: &Log) -> bool {
    let mut next = 0;
    for turn in &log.turns {
        if let Some(entry) = turn {
            if entry.stamp < next {
                return false;
            }
            next = entry.stamp.saturating_add(1);
        }
    }
    true
}

// The history rises, and the entries of each pass are its calls, in order. The answer is how many there are.
fn entries_in(alloc: Global, log: &Log, part: u16, all: &[Calls]) -> Result<usize, Wrong> {
    if !rises(log) {
        return Err(Wrong::Falls { part });
    }
    let mut count = 0usize;
    for (number, calls) in all {
        let stamps = stamps_by(alloc, log, *number)?;
        let made = stamps_on(alloc, calls.as_slice(), part)?;
        if stamps.as_slice() != made.as_slice() {
            return Err(Wrong::Calls {
                part,
                pass: *number,
            });
        }
        count = count.saturating_add(stamps.len());
    }
    Ok(count)
}

/// The same of all parts.
pub fn entries_of(alloc: Global, values: &[Held<Log, Log>], all: &[Calls]) -> Result<usize, Wrong> {
    let mut count = 0usize;
    let mut part = 0u16;
    for value in values {
        count = count.saturating_add(entries_in(alloc, log_of(value), part, all)?);
        part = part.saturating_add(1);
    }
    Ok(count)
}

/// The passes of the entries, part by part.
pub fn passes_of(alloc: Global, values: &[Held<Log, Log>]) -> Result<Vec<u32>, NoMemory> {
    let mut passes = Vec::new(alloc);
    for value in values {
        for turn in &log_of(value).turns {
            if let Some(entry) = turn {
                passes.push(entry.pass)?;
            }
        }
    }
    Ok(passes)
}
