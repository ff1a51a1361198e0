//! A reference that comes or goes: its place at the session, and the path of its file.

ghost use Rattle.std.specs.Prelude.{◌≡◌, ◌+◌, ◌-◌, ◌*◌, ◌^◌, ◌<◌, ◌≤◌, ◌⊎◌, Some, None, length, slice_index_or, slice_set, if◌then◌else◌, IfNone, IfSome, OnOk, OnErr};
ghost use Rattle.vfs_base.specs.Path.{Path};
ghost use Rattle.vfs_base.specs.declared.limits.TheConstants.{HOLDS, ROWS};
ghost use Rattle.dentry_table.specs.DentryTable.{Raises, SameCounts, count_at};
ghost use Rattle.session_holds.specs.SessionTable.{reference_at, with_reference};
ghost use Rattle.holders.specs.Counted.{Names};
ghost use Rattle.holders.specs.Holding.{MayStand, dropped_at, one_where, path_at, with_path};

use dentry_table::DentryTable;
use session_holds::SessionHolds;
use vfs_base::{FileId, List, MountId, NoMemory, Path, RowId, SessionId};
use vfs_model::Reference;

// The file and the mount that the session's reference by this number names.
pub fn target(sessions: &SessionHolds, session: SessionId, number: u8) -> Option<(FileId, MountId)>
    requires from { 1 ≤ number }
    requires to { number ≤ HOLDS }
    ensures names { IfSome result (λ named. Names sessions.now (HOLDS * (session - 1) + (number - 1)) named.0 named.1) }
    ensures none { IfNone result (reference_at sessions.now session number ≡ None) }
{
    prove!(session.place() < 8);
    let reference = sessions.get(session, number)?;
    prove!(reference.file.row.place() < 1024);
    Some((reference.file, reference.mount))
}

// The session has this reference by the number from now on.
pub fn set_reference(
    sessions: &mut SessionHolds,
    session: SessionId,
    number: u8,
    reference: Reference,
)
    requires from { 1 ≤ number }
    requires to { number ≤ HOLDS }
    ensures next { sessions.new ≡ with_reference sessions.old session number (Some reference) }
    ensures within { HOLDS * (session - 1) + (number - 1) < 256 }
    ensures least { 1 ≤ session }
{
    prove!(session.place() < 8);
    sessions.set(session, number, reference);
}

// The path has one holder more, and the row's file stands there.
pub fn enter(
    dentries: &mut DentryTable,
    paths: &mut List<Option<Path>>,
    row: RowId,
    path: &Path,
) -> Result<(), NoMemory>
    requires room { count_at dentries.old.counts path.now < 2 ^ 32 - 1 }
    requires own { MayStand paths.old row path.now }
    requires places { length paths.old ≡ ROWS }
    ensures counts { OnOk result (Raises dentries.old.counts dentries.new.counts path.now) }
    ensures paths { OnOk result (paths.new ≡ with_path paths.old row (Some path.now)) }
    ensures same { OnErr result (SameCounts dentries.old.counts dentries.new.counts) }
    ensures kept { OnErr result (paths.new ≡ paths.old) }
    ensures plan { dentries.new.room ≡ dentries.old.room }
    ensures row { 1 ≤ row }
    ensures within { row ≤ ROWS }
{
    let place = row.place();
    dentries.hold(path.as_names())?;
    match remember(paths, place, path) {
        Ok(()) => Ok(()),
        Err(fault) => {
            dentries.release(path.as_names());
            Err(fault)
        }
    }
}

// The path stands at the place, where nothing or the same path stood.
fn remember(paths: &mut List<Option<Path>>, place: usize, path: &Path) -> Result<(), NoMemory>
    requires own { (slice_index_or paths.old place None ≡ None) ⊎ (slice_index_or paths.old place None ≡ Some path.now) }
    requires within { place < length paths.old }
    ensures ok { OnOk result (paths.new ≡ slice_set paths.old place (Some path.now)) }
    ensures err { OnErr result (paths.new ≡ paths.old) }
{
    if paths.as_slice()[place].is_some() {
        return Ok(());
    }
    let path = path.copy()?;
    paths.set(place, Some(path));
    Ok(())
}

// The path of the row's file, if it has one, has one holder more.
pub fn hold_again(dentries: &mut DentryTable, paths: &List<Option<Path>>, row: RowId)
    requires places { length paths.now ≡ ROWS }
    requires held { 1 ≤ row → (path : Path) → path_at paths.now row ≡ Some path → 0 < count_at dentries.old.counts path }
    requires room { (path : Path) → path_at paths.now row ≡ Some path → count_at dentries.old.counts path < 2 ^ 32 - 1 }
    ensures counts { (q : Path) → count_at dentries.new.counts q ≡ count_at dentries.old.counts q + one_where q (path_at paths.now row) }
    ensures plan { dentries.new.room ≡ dentries.old.room }
    ensures row { 1 ≤ row }
    ensures within { row ≤ ROWS }
{
    if let Some(path) = &paths.as_slice()[row.place()] {
        let Ok(()) = dentries.hold(path.as_names()) else {
            unreachable!();
        };
    }
}

// The path of the row's file, if it has one, has one holder less.
pub fn release_at(dentries: &mut DentryTable, paths: &List<Option<Path>>, row: RowId)
    requires places { length paths.now ≡ ROWS }
    requires held { 1 ≤ row → (path : Path) → path_at paths.now row ≡ Some path → 0 < count_at dentries.old.counts path }
    ensures counts { (q : Path) → count_at dentries.new.counts q + one_where q (path_at paths.now row) ≡ count_at dentries.old.counts q }
    ensures plan { dentries.new.room ≡ dentries.old.room }
{
    if let Some(path) = &paths.as_slice()[row.place()] {
        dentries.release(path.as_names());
    }
}

// The row's file stands nowhere, where the last reference to it has gone.
pub fn forget(paths: &mut List<Option<Path>>, row: RowId, is_last: bool)
    ensures { paths.new ≡ (if is_last then with_path paths.old row None else paths.old) }
{
    if is_last {
        paths.set(row.place(), None);
    }
}

// The row's file stands nowhere, and its path has no holder any more.
pub fn drop_path(dentries: &mut DentryTable, paths: &mut List<Option<Path>>, row: RowId)
    requires { length paths.old ≡ ROWS }
    ensures counts { (q : Path) → count_at dentries.new.counts q ≡ dropped_at (path_at paths.old row) q (count_at dentries.old.counts q) }
    ensures paths { paths.new ≡ with_path paths.old row None }
    ensures plan { dentries.new.room ≡ dentries.old.room }
    ensures row { 1 ≤ row }
    ensures within { row ≤ ROWS }
{
    let place = row.place();
    if let Some(path) = paths.replace(place, None) {
        dentries.dropped(path.as_names());
    }
}
