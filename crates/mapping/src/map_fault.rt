ghost use Rattle.std.specs.Prelude.{◌≡◌};
ghost use Rattle.mapping.specs.MapFault.{errno_of};

use thiserror::Error;
use vfs_base::Errno;

/// Why a part of a file is not mapped, or a mapping not used (POSIX.1-2017, mmap, munmap).
#[derive(Clone, Copy, Debug, PartialEq, Eq, Error)]
pub enum MapFault {
    /// The part is empty or begins within a page, or no mapping has the number.
    #[error("invalid argument")]
    EINVAL,
    /// The part ends behind the greatest offset of a file.
    #[error("value too large for the data type")]
    EOVERFLOW,
    /// A character device cannot be mapped.
    #[error("no such device")]
    ENODEV,
    /// The file is not open for it, or the mapping is not for writing.
    #[error("permission denied")]
    EACCES,
    /// All mappings are used.
    #[error("too many mappings")]
    EMFILE,
    /// The bytes lie behind the end of the mapping.
    #[error("bad address")]
    EFAULT,
}

impl MapFault {
    /// The error that a shell shows.
    pub fn errno(self) -> Errno
        ensures { result ≡ errno_of self }
    {
        match self {
            MapFault::EINVAL => Errno::EINVAL,
            MapFault::EOVERFLOW => Errno::EOVERFLOW,
            MapFault::ENODEV => Errno::ENODEV,
            MapFault::EACCES => Errno::EACCES,
            MapFault::EMFILE => Errno::EMFILE,
            MapFault::EFAULT => Errno::EFAULT,
        }
    }
}
