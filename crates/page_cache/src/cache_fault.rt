ghost use Rattle.std.specs.Prelude.{◌≡◌};

use thiserror::Error;
use vfs_base::NoMemory;
use vfs_outside::Failed;

/// What stops a call of the page cache.
#[derive(Clone, Copy, Debug, PartialEq, Eq, Error)]
pub enum CacheFault {
    /// A call of the device failed: its count of faults rose, or stands at 2^64 - 1.
    #[error("the device failed")]
    DeviceFault,
    /// There was no memory for one more page.
    #[error("no memory")]
    NoMemory,
}

impl From<Failed> for CacheFault {
    ghost use Rattle.page_cache.specs.declared.cache_fault.CacheFault.TheVariants.{DeviceFault as DeviceFails};

    ghost from_gives = { λ _ fault. fault ≡ DeviceFails };

    fn from(_: Failed) -> CacheFault {
        CacheFault::DeviceFault
    }
}

impl From<NoMemory> for CacheFault {
    ghost use Rattle.page_cache.specs.declared.cache_fault.CacheFault.TheVariants.{NoMemory as WantsMemory};

    ghost from_gives = { λ _ fault. fault ≡ WantsMemory };

    fn from(_: NoMemory) -> CacheFault {
        CacheFault::NoMemory
    }
}
