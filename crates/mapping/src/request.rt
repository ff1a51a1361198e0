//! Which parts of an open file may be mapped.

ghost use Rattle.std.specs.Prelude.{◌≡◌, Ok, Err, OnOk, IfErr};
ghost use Rattle.vfs_model.specs.Mappings.{may_map};
ghost use Rattle.mapping.specs.MapFault.{errno_of};

use crate::map_fault::MapFault;
use vfs_base::{Kind, OFF_MAX, PAGE_SIZE};

/// Whether `len` bytes from `off` on may be mapped of an open file of this kind, which is open for
/// reading or for writing, to read them, and to write them too where that is wanted.
///
/// It is refused with the first of these that holds (POSIX.1-2017, mmap): `EINVAL` where `len` is 0
/// or `off` is no multiple of a page's size, `EOVERFLOW` where the part ends behind `OFF_MAX`,
/// `ENODEV` for a character device, and `EACCES` where the file is not open for reading, or
/// writing is wanted and it is not open for that.
#[tactic(auto, unfolding(vfs_model::specs::Mappings::may_map))]
pub fn may_map(
    kind: Kind,
    reads: bool,
    writes: bool,
    off: u64,
    len: u64,
    wants_write: bool,
) -> Result<(), MapFault>
    ensures ok { OnOk result (may_map kind reads writes off len wants_write ≡ Ok tt) }
    ensures fault { IfErr result
        (λ fault. may_map kind reads writes off len wants_write ≡ Err (errno_of fault)) }
{
    if len == 0 || off % PAGE_SIZE != 0 {
        return Err(MapFault::EINVAL);
    }
    if OFF_MAX < off.saturating_add(len) {
        return Err(MapFault::EOVERFLOW);
    }
    if kind == Kind::Chr {
        return Err(MapFault::ENODEV);
    }
    if !reads || wants_write && !writes {
        return Err(MapFault::EACCES);
    }
    Ok(())
}
