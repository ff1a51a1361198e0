//! Who holds what.

ghost use Rattle.std.specs.Prelude.{◌≡◌, ◌≢◌, ◌↔◌, [], Err, false, ◌+◌, ◌-◌, ◌<◌, ◌≤◌, Some, None, true, length, nat_lt, slice_get, if◌then◌else◌, IfNone, IfOk, IfSome, OnOk, OnErr};
ghost use Rattle.std.specs.List.{list_any};
ghost use Rattle.std.specs.Result.{result_ok};
ghost use Rattle.vfs_base.specs.declared.limits.TheConstants.{HOLDS, ROWS};
ghost use Rattle.vfs_base.specs.declared.limits.TheConstants.{HOLDS, MOUNTS};
ghost use Rattle.vfs_model.specs.Lookup.{is_prefix};
ghost use Rattle.vfs_model.specs.Namespace.{same_path};
ghost use Rattle.mount_tree.specs.MountList.{has_number, has_point, least_free_number as least_free_mount, mounts_of, without_mount};
ghost use Rattle.mount_tree.specs.declared.mount_fault.MountFault.TheVariants as fault;
ghost use Rattle.session_holds.specs.SessionTable.{folder_of, least_free_number, reference_at, with_folder_of, with_reference};
ghost use Rattle.vnode_table.specs.SlotTable.{IsFreeRow, file_at, free_files, is_unused, slot_at, unbound_slot, with_slot};
ghost use Rattle.holders.specs.Counted.{Names};
ghost use Rattle.holders.specs.Holding.{holders_at, HoldsFiles, is_used, MayMove, MayStand, opening_holding, path_at, Renames, with_bound, with_mapping, with_mounted, with_moved, with_open, with_path, without_name, without_reference};
ghost use Rattle.dentry_table.specs.DentryTable.{AreApart};
ghost use Rattle.vfs_base.specs.Path.{Path};

use crate::counting::{is_counted, lower, no_paths, opening_dentries, opening_uses, raise};
use crate::moves::{RenamePlan, planned_paths, take_paths};
use crate::references::{drop_path, enter, forget, hold_again, release_at, set_reference, target};
use dentry_table::DentryTable;
use mount_tree::{MountFault, MountTree};
use session_holds::SessionHolds;
use std::alloc::Global;
use std::marker::Model;
use vfs_base::{Bytes, FileId, FsType, List, MountId, Name, NoMemory, Path, RowId, SessionId};
use vfs_model::Reference;
use vnode_table::{RowsFull, VnodeTable};

/// The mounts, the vnode slots, the references and the working directories, and the numbers of holders by
/// path and by mount.
///
/// A call that wants memory and gets none leaves everything as it was.
#[derive(Drop)]
pub struct Holders {
    alloc: Global,
    mounts: MountTree,
    rows: VnodeTable,
    sessions: SessionHolds,
    dentries: DentryTable,
    // By row: where its file stands, while it has a name and references.
    paths: List<Option<Path>>,
    // By number of a mount: the references that name it and the working directories in it.
    uses: List<u32>,
}

impl Model for Holders {
    ghost use Rattle.holders.specs.Counted.{IsCounted};
    ghost use Rattle.holders.specs.Holding.{Holding};

    ghost Value = { Holding };

    ghost view = { λ h. record { mounts = h.mounts; rows = h.rows; paths = h.paths; sessions = h.sessions; room = h.dentries.room } };

    ghost invariant = { λ h. IsCounted (record { mounts = h.mounts; rows = h.rows; paths = h.paths; sessions = h.sessions; room = h.dentries.room }) h.dentries.counts h.uses };
}

impl Holders {
    /// `/` is mounted, no row was bound, and each session stands in `/`.
    pub fn new(alloc: Global) -> Result<Holders, NoMemory>
        ensures { IfOk result (λ holders. holders ≡ opening_holding) }
    {
        let mounts = MountTree::new(alloc)?;
        let rows = VnodeTable::new(alloc)?;
        let sessions = SessionHolds::new(alloc)?;
        let dentries = opening_dentries(alloc)?;
        let paths = no_paths(alloc)?;
        let uses = opening_uses(alloc)?;
        Ok(Holders {
            alloc,
            mounts,
            rows,
            sessions,
            dentries,
            paths,
            uses,
        })
    }

    /// The mounts.
    pub fn mounts(&self) -> &MountTree
        ensures { result.now ≡ self.now.mounts }
    {
        &self.mounts
    }

    /// The vnode slots.
    pub fn rows(&self) -> &VnodeTable
        ensures { result.now ≡ self.now.rows }
    {
        &self.rows
    }

    /// The references and the working directories of sessions.
    pub fn sessions(&self) -> &SessionHolds
        ensures { result.now ≡ self.now.sessions }
    {
        &self.sessions
    }

    /// Whether a session's working directory is the path.
    pub fn is_working_directory(&self, path: &[Name]) -> bool
        ensures { result ≡ list_any (same_path path.now) self.now.sessions.folders }
    {
        is_one_of(self.sessions.folders(), path)
    }

    /// Whether a session's working directory is the path or lies below it.
    pub fn has_folder_within(&self, path: &[Name]) -> bool
        ensures { result ≡ list_any (is_prefix path.now) self.now.sessions.folders }
    {
        has_within(self.sessions.folders(), path)
    }

    /// Whether a reference names the mount, or a working directory lies in it. Neither references nor working
    /// directories are walked over.
    pub fn is_used(&self, mount: MountId) -> bool
        ensures { result ≡ is_used self.now mount }
    {
        is_counted(&self.uses, mount)
    }

    /// The session's working directory is this folder from now on. Where the folder has a holder already, no
    /// memory is wanted.
    pub fn set_folder(&mut self, session: SessionId, folder: Path) -> Result<(), NoMemory>
        ensures ok { OnOk result (self.new ≡ record self.old { sessions = with_folder_of self.old.sessions session folder }) }
        ensures err { OnErr result (self.new ≡ self.old) }
        ensures held { OnErr result (holders_at self.old folder ≡ 0) }
    {
        self.dentries.hold(folder.as_names())?;
        let to = self.mounts.under(folder.as_names()).number;
        let old = folder_of(&self.sessions, session).as_names();
        let from = self.mounts.under(old).number;
        self.dentries.release(old);
        lower(&mut self.uses, from);
        raise(&mut self.uses, to);
        self.sessions.set_folder(session, folder);
        Ok(())
    }

    /// The session's working directory is `/` from now on. No memory is wanted, since its mount holds it.
    pub fn go_home(&mut self, session: SessionId)
        ensures { self.new ≡ record self.old { sessions = with_folder_of self.old.sessions session [] } }
    {
        let root = Path::root(self.alloc);
        let Ok(()) = self.set_folder(session, root) else {
            unreachable!();
        };
    }

    /// The session has this reference by the number from now on: that of an open file, which stands at the path.
    pub fn add_open(
        &mut self,
        session: SessionId,
        number: u8,
        reference: Reference,
        path: &Path,
    ) -> Result<(), NoMemory>
        requires from { 1 ≤ number }
        requires to { number ≤ HOLDS }
        requires free { reference_at self.old.sessions session number ≡ None }
        requires bound { file_at self.old.rows reference.file.row ≡ Some reference.file }
        requires linked { (slot_at self.old.rows reference.file.row).linked ≡ true }
        requires path { MayStand self.old.paths reference.file.row path.now }
        ensures ok { OnOk result (self.new ≡ with_open self.old session number reference path.now) }
        ensures err { OnErr result (self.new ≡ self.old) }
    {
        let Reference { file, mount, .. } = reference;
        enter(&mut self.dentries, &mut self.paths, file.row, path)?;
        self.rows.hold(file);
        raise(&mut self.uses, mount);
        set_reference(&mut self.sessions, session, number, reference);
        Ok(())
    }
}

impl Holders {
    /// The session has this reference by the number from now on, to a file that has references. No memory is
    /// wanted.
    pub fn add_mapping(&mut self, session: SessionId, number: u8, reference: Reference)
        requires from { 1 ≤ number }
        requires to { number ≤ HOLDS }
        requires free { reference_at self.old.sessions session number ≡ None }
        requires bound { file_at self.old.rows reference.file.row ≡ Some reference.file }
        requires held { 0 < (slot_at self.old.rows reference.file.row).references }
        ensures { self.new ≡ with_mapping self.old session number reference }
    {
        let Reference { file, mount, .. } = reference;
        hold_again(&mut self.dentries, &self.paths, file.row);
        self.rows.hold(file);
        raise(&mut self.uses, mount);
        set_reference(&mut self.sessions, session, number, reference);
    }

    /// Binds the least free row, and answers its file, which is linked and has no references.
    ///
    /// # Errors
    /// `RowsFull` exactly where no row is free.
    pub fn bind(&mut self) -> Result<FileId, RowsFull>
        ensures next { result_ok result ≡ slice_get (free_files self.old.rows) 0 }
        ensures free { IfOk result (IsFreeRow self.old.rows) }
        ensures ok { IfOk result (λ file. self.new ≡ with_bound self.old file.row) }
        ensures err { OnErr result (self.new ≡ self.old) }
    {
        let Ok(file) = self.rows.bind_next() else {
            return Err(RowsFull);
        };
        let FileId { row, generation } = file;
        self.rows.link(file, true);
        Ok(FileId { row, generation })
    }

    /// The file has no name from now on. The references to it stay; they hold no path any more. No memory is
    /// wanted.
    pub fn unlink(&mut self, file: FileId)
        requires bound { file_at self.old.rows file.row ≡ Some file }
        requires path { IfSome (path_at self.old.paths file.row) (HoldsFiles self.old) }
        ensures { self.new ≡ without_name self.old file.row }
    {
        let row = file.row;
        drop_path(&mut self.dentries, &mut self.paths, row);
        self.rows.link(file, false);
    }

    /// The row is free from now on. Its file is neither linked nor has references.
    pub fn free(&mut self, row: RowId)
        requires { is_unused (slot_at self.old.rows row) ≡ true }
        ensures { self.new ≡ record self.old { rows = with_slot self.old.rows row unbound_slot } }
    {
        prove!(row.place() < 1024);
        self.rows.unbind(row);
    }

    /// Takes the reference away that the session has by this number, and answers it. No memory is wanted.
    pub fn give_up(&mut self, session: SessionId, number: u8) -> Option<Reference>
        requires from { 1 ≤ number }
        requires to { number ≤ HOLDS }
        ensures reference { result ≡ reference_at self.old.sessions session number }
        ensures left { IfSome result (λ reference. self.new ≡ without_reference self.old session number reference) }
        ensures none { IfNone result (self.new ≡ self.old) }
    {
        let (file, mount) = target(&self.sessions, session, number)?;
        let row = file.row;
        release_at(&mut self.dentries, &self.paths, row);
        let is_last = self.rows.holds(row) == 1;
        self.rows.release(file);
        forget(&mut self.paths, row, is_last);
        lower(&mut self.uses, mount);
        self.sessions.take(session, number)
    }
}

impl Holders {
    /// Adds a mount, as `MountTree::add` does, at a point that no mount has. It holds its point. No working
    /// directory is the point or lies below it.
    ///
    /// # Errors
    /// `Full` exactly where there are 16 mounts, and `NoMemory`. The point and the source are dropped.
    pub fn add_mount(
        &mut self,
        point: Path,
        fs: FsType,
        source: Bytes,
    ) -> Result<MountId, MountFault>
        requires point { has_point self.old.mounts point ≡ false }
        requires folders { list_any (is_prefix point) self.old.sessions.folders ≡ false }
        ensures mount { IfOk result (λ number.
            self.new ≡ with_mounted self.old (record { number = number; point = point; fs = fs; source = source })) }
        ensures number { IfOk result (λ number. number ≡ least_free_mount self.old.mounts) }
        ensures full { (result ≡ Err fault.Full) ↔ (length (mounts_of self.old.mounts) ≡ MOUNTS) }
        ensures refused { OnErr result (self.new ≡ self.old) }
    {
        let number = match self.mounts.add(point, fs, source) {
            Ok(number) => number,
            Err(fault) => return Err(fault),
        };
        let point = self.mounts.point(number).as_names();
        match self.dentries.hold(point) {
            Ok(()) => Ok(number),
            Err(fault) => {
                self.mounts.remove(number);
                Err(fault.into())
            }
        }
    }

    /// Takes a mount away that is there, is not that of `/` and has no user. Its point has one holder less. No
    /// memory is wanted.
    pub fn remove_mount(&mut self, mount: MountId)
        requires there { has_number self.old.mounts mount ≡ true }
        requires not_root { mount ≢ 0 }
        requires unused { is_used self.old mount ≡ false }
        ensures { self.new ≡ record self.old { mounts = without_mount self.old.mounts mount } }
    {
        let point = self.mounts.point(mount).as_names();
        self.dentries.release(point);
        self.mounts.remove(mount);
    }
}

impl Holders {
    /// Plans a rename: takes the room of the move of all that is held at and below one path to another. There is
    /// room for one move at a time; an earlier plan is given up. Rows are walked over only where something is held
    /// at or below the first path.
    pub fn plan_move(&mut self, from: &Path, to: &Path) -> Result<RenamePlan, NoMemory>
        requires { AreApart from.now to.now }
        ensures from { IfOk result (λ plan. plan.from ≡ from.now) }
        ensures to { IfOk result (λ plan. plan.to ≡ to.now) }
        ensures paths { IfOk result (λ plan. Renames plan self.old.paths) }
        ensures room { OnOk result (self.new ≡ record self.old { room = to.now }) }
        ensures err { OnErr result (self.new ≡ record self.old { room = [] }) }
    {
        let holders = self.dentries.plan_move(from, to)?;
        match planned_paths(self.alloc, &self.dentries, &self.paths, from, to) {
            Ok(paths) => Ok(RenamePlan { holders, paths }),
            Err(fault) => {
                self.dentries.cancel_move(holders);
                Err(fault)
            }
        }
    }

    /// Carries a rename out: the files at and below the plan's first path stand at and below its second one, and
    /// are held there. No memory is wanted.
    pub fn moved(&mut self, plan: RenamePlan)
        requires { MayMove self.old plan }
        ensures { self.new ≡ with_moved self.old plan.from plan.to }
    {
        let RenamePlan { holders, paths } = plan;
        self.dentries.moved(holders);
        take_paths(&mut self.paths, paths);
    }

    /// Gives the room of a rename back. No memory is wanted.
    pub fn cancel_move(&mut self, plan: RenamePlan)
        requires { self.old.room ≡ plan.to }
        ensures { self.new ≡ record self.old { room = [] } }
    {
        let RenamePlan { holders, paths } = plan;
        drop(paths);
        self.dentries.cancel_move(holders);
    }
}

// The working directory of a session.
fn folder_of(sessions: &SessionHolds, session: SessionId) -> &Path
    ensures folder { result.now ≡ folder_of sessions.now session }
    ensures within { session - 1 < 8 }
{
    &sessions.folders()[session.place()]
}

// Whether one of the folders is the path.
fn is_one_of(folders: &[Path], path: &[Name]) -> bool
    ensures { result ≡ list_any (same_path path.now) folders.now }
{
    folders.iter().any(|folder| path == folder.as_names())
}

// Whether one of the folders is the path or lies below it.
fn has_within(folders: &[Path], path: &[Name]) -> bool
    ensures { result ≡ list_any (is_prefix path.now) folders.now }
{
    folders
        .iter()
        .any(|folder| folder.as_names().starts_with(path))
}
