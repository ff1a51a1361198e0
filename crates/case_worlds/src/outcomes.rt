//! What is told of a start and of a schedule: the fault, as a line.

ghost use Rattle.std.specs.Prelude.{◌≡◌, true};
ghost use Rattle.vfs_base.specs.Path.{AllAre};
ghost use Rattle.vfs_model.specs.Sizes.{HasFewCells};

use case_forms::CaseFault;
use plain_steps::PlainFault;
use std::alloc::Global;
use vfs_base::{Bytes, VolumeShape, push_number};

/// Whether no volume has too many cells.
pub fn have_few_cells(volumes: &[VolumeShape]) -> bool
    ensures { result ≡ true → AllAre HasFewCells volumes.now }
{
    for shape in volumes {
        if shape.pages.len() > 1024 {
            return false;
        }
    }
    true
}

/// A line that tells the fault.
pub fn fault_text(alloc: Global, fault: PlainFault) -> Result<Bytes, CaseFault> {
    match fault {
        PlainFault::NoSchedule { at } => numbered(alloc, b"no schedule at ", at),
        PlainFault::BadRom { index } => numbered(alloc, b"bad rom ", index),
        PlainFault::Untold => Ok(Bytes::from_slice(alloc, b"untold\n")?),
        PlainFault::NoMemory => Err(CaseFault::NoMemory),
    }
}

/// The words and the number, as a line.
pub fn numbered(alloc: Global, words: &[u8], number: u64) -> Result<Bytes, CaseFault> {
    let mut text = Bytes::new(alloc);
    text.extend_from_slice(words)?;
    push_number(&mut text, number)?;
    text.push(b'\n')?;
    Ok(text)
}
