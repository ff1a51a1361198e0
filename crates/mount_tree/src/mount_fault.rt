ghost use Rattle.std.specs.Prelude.{◌≡◌};

use thiserror::Error;
use vfs_base::NoMemory;

/// Why a mount is not added.
#[derive(Clone, Copy, Debug, PartialEq, Eq, Error)]
pub enum MountFault {
    /// All 16 numbers are used.
    #[error("too many mounts")]
    Full,
    /// There is no memory for one more.
    #[error("no memory")]
    NoMemory,
}

impl From<NoMemory> for MountFault {
    ghost use Rattle.mount_tree.specs.declared.mount_fault.MountFault.TheVariants.{NoMemory as WantsMemory};

    ghost from_gives = { λ _ fault. fault ≡ WantsMemory };

    fn from(_: NoMemory) -> MountFault {
        MountFault::NoMemory
    }
}
