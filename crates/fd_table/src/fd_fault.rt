ghost use Rattle.std.specs.Prelude.{◌≡◌};
ghost use Rattle.fd_table.specs.FdFault.{errno_of};

use thiserror::Error;
use vfs_base::Errno;

/// Why a descriptor is not given out or not used.
#[derive(Clone, Copy, Debug, PartialEq, Eq, Error)]
pub enum FdFault {
    /// All descriptors are used (POSIX.1-2017, open, dup).
    #[error("too many open files")]
    EMFILE,
    /// The descriptor is free or out of range (POSIX.1-2017, close, dup, lseek).
    #[error("bad file descriptor")]
    EBADF,
    /// The place would be before the beginning of the file (POSIX.1-2017, lseek).
    #[error("invalid argument")]
    EINVAL,
    /// The place would be behind the greatest offset of a file (POSIX.1-2017, lseek).
    #[error("value too large for the data type")]
    EOVERFLOW,
}

impl FdFault {
    /// The error that a shell shows.
    pub fn errno(self) -> Errno
        ensures { result ≡ errno_of self }
    {
        match self {
            FdFault::EMFILE => Errno::EMFILE,
            FdFault::EBADF => Errno::EBADF,
            FdFault::EINVAL => Errno::EINVAL,
            FdFault::EOVERFLOW => Errno::EOVERFLOW,
        }
    }
}
