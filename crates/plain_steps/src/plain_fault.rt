ghost use Rattle.std.specs.Prelude.{◌≡◌};
ghost use Rattle.plain_steps.specs.declared.plain_fault.PlainFault.TheVariants.{NoMemory as no_memory};

use thiserror::Error;
use vfs_base::NoMemory;

/// Why a script has no text in its plain form. Of several faults the first of these comes: BadRom,
/// Untold, NoSchedule.
#[derive(Clone, Copy, Debug, PartialEq, Eq, Error)]
pub enum PlainFault {
    /// The entry at this place, counted from 0, is the first that can't be taken; or the schedule
    /// has so many entries and is not whole.
    #[error("the schedule can't be taken at entry {at}")]
    NoSchedule { at: u64 },
    /// A character device does not tell its input.
    #[error("a device does not tell its input")]
    Untold,
    /// The manifest of this rom, counted from 0, is the first that is not in its form.
    #[error("the manifest of rom {index} is not in its form")]
    BadRom { index: u64 },
    /// Memory ran out.
    #[error("no memory")]
    NoMemory,
}

impl From<NoMemory> for PlainFault {
    ghost from_gives = { λ _ fault. fault ≡ no_memory };

    fn from(_error: NoMemory) -> PlainFault {
        PlainFault::NoMemory
    }
}
