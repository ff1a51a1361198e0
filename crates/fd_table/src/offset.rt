//! Offsets in a file: those that reads, writes and seeks lead to.

ghost use Rattle.std.specs.Prelude.{◌≡◌, Ok, Err, IfOk, IfErr};
ghost use Rattle.vfs_model.specs.OpenFiles.{moved_offset, sought_offset, whence_offset};
ghost use Rattle.fd_table.specs.FdFault.{errno_of};

use crate::fd_fault::FdFault;
use vfs_base::OFF_MAX;
use vfs_model::{OpenFile, Whence};

/// The greatest offset that a read or a write leads to: one of the greatest size may end a little
/// behind the greatest offset that a seek leads to.
pub const OFFSET_MAX: u64 = 0x8000_0000_0010_0000;

/// The offset so many bytes on, which is never behind `OFFSET_MAX`.
pub fn moved_offset(offset: u64, count: u64) -> u64
    ensures { result ≡ moved_offset offset count }
{
    offset.saturating_add(count).min(OFFSET_MAX)
}

// Where an offset is counted from.
pub(crate) fn whence_offset(file: &OpenFile, whence: Whence) -> u64
    ensures { result ≡ whence_offset file.now whence }
{
    match whence {
        Whence::Set => 0,
        Whence::Cur => file.place,
        Whence::End { size } => size,
    }
}

// The offset so far from another one, forward or backward.
pub(crate) fn sought_offset(from: u64, off: i64) -> Result<u64, FdFault>
    ensures ok { IfOk result (λ offset. sought_offset from off ≡ Ok offset) }
    ensures fault { IfErr result (λ fault. sought_offset from off ≡ Err (errno_of fault)) }
{
    let offset = from as i128 + off as i128;
    if offset < 0 {
        return Err(FdFault::EINVAL);
    }
    if (OFF_MAX as i128) < offset {
        return Err(FdFault::EOVERFLOW);
    }
    Ok(offset as u64)
}
