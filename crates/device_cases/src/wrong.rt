//! What differs first from what a case expects.

use std::io;
use vfs_base::{Counts, NoMemory};
use vfs_outside::{DeviceWhy, Failed};

/// Why a case is not ok.
#[derive(Debug, Drop)]
pub enum Wrong {
    /// There was no memory for the case.
    NoMemory,
    /// The file could not be made, cut or removed.
    File,
    /// A call of a device failed.
    Failed,
    /// A call of a device did not fail.
    Passed,
    /// The page does not have its bytes.
    Page { page: u16 },
    /// The device has made other calls.
    Counts { counts: Option<Counts> },
    /// The file has so many bytes.
    Size { size: u64 },
    /// A device was taken that must be refused, or refused for another reason.
    Taken { why: Option<DeviceWhy> },
    /// Something is not there, or is there though it is out.
    There,
}

impl From<NoMemory> for Wrong {
    fn from(_fault: NoMemory) -> Wrong {
        Wrong::NoMemory
    }
}

impl From<io::Error> for Wrong {
    fn from(_fault: io::Error) -> Wrong {
        Wrong::File
    }
}

impl From<Failed> for Wrong {
    fn from(_fault: Failed) -> Wrong {
        Wrong::Failed
    }
}
