ghost use Rattle.std.specs.Prelude.{◌≡◌};
ghost use Rattle.vfs_path.specs.PathFault.{errno_of};
ghost use Rattle.vfs_path.specs.declared.path_fault.PathFault.TheVariants.{NoMemory as no_memory};

use thiserror::Error;
use vfs_base::{Errno, NoMemory};

/// Why a text names no path. A text with several of the first four has the first of Empty, BadByte,
/// PathTooLong of the text, NameTooLong, PathTooLong of the path.
#[derive(Clone, Copy, Debug, PartialEq, Eq, Error)]
pub enum PathFault {
    /// The text has no byte.
    #[error("an empty path")]
    Empty = 1,
    /// A part of the text has more than 255 bytes, be it one that a later `..` removes.
    #[error("a name of more than 255 bytes")]
    NameTooLong = 2,
    /// The text, or the printed path, has more than 1024 bytes.
    #[error("a path of more than 1024 bytes")]
    PathTooLong = 3,
    /// A byte of the text is zero.
    #[error("a zero byte")]
    BadByte = 4,
    /// Memory ran out, which tells nothing of the path.
    #[error("no memory")]
    NoMemory = 5,
}

impl PathFault {
    /// The error that a step answers for the fault.
    pub fn errno(self) -> Errno
        ensures { result ≡ errno_of self }
    {
        match self {
            PathFault::Empty => Errno::ENOENT,
            PathFault::NameTooLong | PathFault::PathTooLong => Errno::ENAMETOOLONG,
            PathFault::BadByte => Errno::EINVAL,
            PathFault::NoMemory => Errno::ENOMEM,
        }
    }
}

impl From<NoMemory> for PathFault {
    ghost from_gives = { λ _ fault. fault ≡ no_memory };

    fn from(_error: NoMemory) -> PathFault {
        PathFault::NoMemory
    }
}
