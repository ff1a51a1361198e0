//! Numbers of users by mount, and what counts begin with.

ghost use Rattle.std.specs.Prelude.{◌≡◌, [], ◌+◌, ◌-◌, ◌*◌, ◌<◌, ◌^◌, length, nat_lt, replicate, slice_index_or, slice_set, None, IfOk};
ghost use Rattle.vfs_base.specs.Path.{Path};
ghost use Rattle.vfs_base.specs.declared.limits.TheConstants.{MOUNTS, ROWS, SESSIONS};
ghost use Rattle.dentry_table.specs.DentryTable.{count_at, one_at};

use dentry_table::DentryTable;
use std::alloc::Global;
use vfs_base::{List, MOUNTS, MountId, NoMemory, Path, ROWS, SESSIONS};

// The mount has one user more.
pub fn raise(uses: &mut List<u32>, mount: MountId)
    requires places { length uses.old ≡ MOUNTS }
    requires room { mount < MOUNTS → slice_index_or uses.old mount 0 < 2 ^ 32 - 1 }
    ensures number { uses.new ≡ slice_set uses.old mount (slice_index_or uses.old mount 0 + 1) }
    ensures below { mount < MOUNTS }
{
    let place = usize::from(mount.number());
    let count = uses.as_slice()[place];
    uses.set(place, count + 1);
}

// The mount has one user less.
pub fn lower(uses: &mut List<u32>, mount: MountId)
    requires places { length uses.old ≡ MOUNTS }
    requires used { mount < MOUNTS → 0 < slice_index_or uses.old mount 0 }
    ensures number { uses.new ≡ slice_set uses.old mount (slice_index_or uses.old mount 0 - 1) }
    ensures below { mount < MOUNTS }
{
    let place = usize::from(mount.number());
    let count = uses.as_slice()[place];
    uses.set(place, count - 1);
}

// No row's file has a path.
pub fn no_paths(alloc: Global) -> Result<List<Option<Path>>, NoMemory>
    ensures { IfOk result (λ paths. paths ≡ replicate ROWS None) }
{
    let mut paths = List::new(alloc);
    for _ in 0..ROWS as usize {
        paths.push(None)?;
    }
    Ok(paths)
}

// Each session stands in `/`, whose mount has number 0, and no mount has another user.
pub fn opening_uses(alloc: Global) -> Result<List<u32>, NoMemory>
    ensures { IfOk result (λ uses. uses ≡ slice_set (replicate MOUNTS 0) 0 SESSIONS) }
{
    let uses = vec![in alloc; 0; MOUNTS]?;
    let mut uses = List::from_vec(uses);
    uses.set(0, u32::from(SESSIONS));
    Ok(uses)
}

// `/` has the holders that it begins with: the eight sessions and its mount.
pub fn opening_dentries(alloc: Global) -> Result<DentryTable, NoMemory>
    ensures counts { IfOk result (λ table. (q : Path) → count_at table.counts q ≡ 9 * one_at q []) }
    ensures plan { IfOk result (λ table. table.room ≡ []) }
{
    let mut dentries = DentryTable::new(alloc)?;
    for _ in 0..SESSIONS as usize + 1 {
        dentries.hold(&[])?;
    }
    Ok(dentries)
}

// Whether the mount has a user.
pub fn is_counted(uses: &List<u32>, mount: MountId) -> bool
    requires { length uses.now ≡ MOUNTS }
    ensures used { result ≡ nat_lt 0 (slice_index_or uses.now mount 0) }
    ensures below { mount < MOUNTS }
{
    0 < uses.as_slice()[usize::from(mount.number())]
}
