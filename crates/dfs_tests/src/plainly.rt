//! Whole scripts under a schedule, as the plain run shows them.

use case_forms::CaseFault;
use case_worlds::{fault_text, have_few_cells};
use std::alloc::Global;
use vfs_base::{Bytes, Deck, Describe, Entry, List};
use vfs_plain::plain_run;

/// What the script shows under the schedule, or why it shows nothing.
pub fn shown_plainly(
    alloc: Global,
    deck: &Deck,
    describe: &Describe,
    schedule: &[Entry],
) -> Result<Bytes, CaseFault> {
    if !have_few_cells(describe.volumes.as_slice()) {
        return Err(CaseFault::Number);
    }
    match plain_run(alloc, deck, describe, schedule) {
        Ok(text) => Ok(text),
        Err(fault) => fault_text(alloc, fault),
    }
}

/// The same without devices.
pub fn shown_alone(alloc: Global, deck: &Deck, schedule: &[Entry]) -> Result<Bytes, CaseFault> {
    let describe = Describe {
        volumes: List::new(alloc),
        chars: List::new(alloc),
    };
    shown_plainly(alloc, deck, &describe, schedule)
}
