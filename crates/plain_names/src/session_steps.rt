//! The steps of sessions on names and references, with their changes of slots.
//!
//! A path is refused first by its text, which is its fault: `ENOENT` for no byte, `EINVAL` for a zero
//! byte, `ENAMETOOLONG` for a name above 255 bytes or a path above 1024.

ghost use Rattle.std.specs.Prelude.{◌≡◌, Ok, OnErr};
ghost use Rattle.vfs_base.specs.declared.step.Step.TheVariants as step;
ghost use Rattle.vfs_model.specs.Gives.{Gives};
ghost use Rattle.vfs_model.specs.Sizes.{IsSized};
ghost use Rattle.plain_nodes.specs.WorldAnswer.{leaving, world_answer};

use crate::listing::{chdir, cwd, home, list};
use crate::moving::rename;
use crate::naming::{mkdir, rmdir, stat, unlink};
use crate::opening::open;
use crate::references::{give_up, map};
use plain_nodes::applying::apply;
use std::alloc::Global;
use vfs_base::{Bytes, HoldId, OpenFlags, Reply, SessionId};
use vfs_model::{Role, Stop, WorldState};

/// What stands at the path (POSIX.1-2017, stat).
///
/// # Errors
/// The fault of the path; `ENOENT` or `ENOTDIR` of the walk; `ENOENT` where nothing stands there.
pub fn stat_in(
    world: &WorldState,
    alloc: Global,
    session: SessionId,
    path: &Bytes,
) -> Result<Reply, Stop>
    ensures told { Gives (leaving world.now) result (world_answer world.now session (step.Stat path.now)) }
{
    let node = stat(&world.namespace, alloc, session, path)?;
    Ok(Reply::Node { node })
}

/// The folder's path, and what is in it, in byte order of the names.
///
/// # Errors
/// The fault of the path; `ENOENT` or `ENOTDIR` of the walk; `ENOENT`; `ENOTDIR` for a file.
pub fn list_in(
    world: &WorldState,
    alloc: Global,
    session: SessionId,
    path: &Bytes,
) -> Result<Reply, Stop>
    ensures told { Gives (leaving world.now) result (world_answer world.now session (step.List path.now)) }
{
    let (path, entries) = list(&world.namespace, alloc, session, path)?;
    Ok(Reply::Listing { path, entries })
}

/// The session's working directory (POSIX.1-2017, getcwd). Nothing refuses it.
pub fn cwd_in(world: &WorldState, alloc: Global, session: SessionId) -> Result<Reply, Stop>
    ensures told { Gives (leaving world.now) result (world_answer world.now session step.Cwd) }
{
    let path = cwd(&world.namespace, alloc, session)?;
    Ok(Reply::At { path })
}

/// Makes a folder at the path (POSIX.1-2017, mkdir).
///
/// # Errors
/// The fault of the path; `ENOENT` or `ENOTDIR` of the walk; `EEXIST`; `EROFS`; `ENOSPC` where the
/// mount has 4096 nodes beside its root.
pub fn mkdir_in(
    world: &mut WorldState,
    alloc: Global,
    session: SessionId,
    path: &Bytes,
) -> Result<Reply, Stop>
    ensures told { Gives (leaving world.new) result (world_answer world.old session (step.Mkdir path.now)) }
    ensures err { OnErr result (world.new ≡ world.old) }
{
    mkdir(&mut world.namespace, alloc, session, path)?;
    Ok(Reply::Done)
}

/// Removes the empty folder at the path (POSIX.1-2017, rmdir).
///
/// # Errors
/// The fault of the path; `EBUSY` at a mount's point; `ENOENT` or `ENOTDIR` of the walk; `ENOENT`;
/// `ENOTDIR` for a file; `EROFS`; `ENOTEMPTY`; `EBUSY` for a session's working directory.
pub fn rmdir_in(
    world: &mut WorldState,
    alloc: Global,
    session: SessionId,
    path: &Bytes,
) -> Result<Reply, Stop>
    ensures told { Gives (leaving world.new) result (world_answer world.old session (step.Rmdir path.now)) }
    ensures err { OnErr result (world.new ≡ world.old) }
{
    rmdir(&mut world.namespace, alloc, session, path)?;
    Ok(Reply::Done)
}

/// Removes the name of the file at the path (POSIX.1-2017, unlink). The file goes unless a reference
/// holds it.
///
/// # Errors
/// The fault of the path; `ENOENT` or `ENOTDIR` of the walk; `ENOENT`; `EPERM` for a folder; `EROFS`.
pub fn unlink_in(
    world: &mut WorldState,
    alloc: Global,
    session: SessionId,
    path: &Bytes,
) -> Result<Reply, Stop>
    ensures told { Gives (leaving world.new) result (world_answer world.old session (step.Unlink path.now)) }
    ensures err { OnErr result (world.new ≡ world.old) }
{
    let change = unlink(&mut world.namespace, alloc, session, path)?;
    apply(world, change);
    Ok(Reply::Done)
}

/// Moves a file, or a folder with all below it (POSIX.1-2017, rename). A replaced file goes unless a
/// reference holds it.
///
/// # Errors
/// The fault of the old path, and of the new one; `EBUSY` at a mount's point; `ENOENT` or `ENOTDIR` of
/// the old walk; `ENOENT`; the same of the new walk; `EXDEV`; `EROFS`; then, unless both paths are the
/// same, `EINVAL` for a place below itself; `ENOTDIR` for a folder over a file; `EISDIR` for a file over
/// a folder; `ENOTEMPTY`; `EBUSY` for a folder with a working directory at or below it, or a mount
/// below it, and where the new path is a working directory.
pub fn rename_in(
    world: &mut WorldState,
    alloc: Global,
    session: SessionId,
    old: &Bytes,
    new: &Bytes,
) -> Result<Reply, Stop>
    ensures told { Gives (leaving world.new) result (world_answer world.old session (step.Rename old.now new.now)) }
    ensures err { OnErr result (world.new ≡ world.old) }
{
    let change = rename(&mut world.namespace, alloc, session, old, new)?;
    apply(world, change);
    Ok(Reply::Done)
}

/// Makes the folder at the path the session's working directory (POSIX.1-2017, chdir), and answers its
/// path.
///
/// # Errors
/// The fault of the path; `ENOENT` or `ENOTDIR` of the walk; `ENOENT`; `ENOTDIR` for a file.
pub fn chdir_in(
    world: &mut WorldState,
    alloc: Global,
    session: SessionId,
    path: &Bytes,
) -> Result<Reply, Stop>
    ensures told { Gives (leaving world.new) result (world_answer world.old session (step.Chdir path.now)) }
    ensures err { OnErr result (world.new ≡ world.old) }
{
    let path = chdir(&mut world.namespace, alloc, session, path)?;
    Ok(Reply::At { path })
}

/// Makes `/` the session's working directory. Nothing refuses it.
pub fn home_in(world: &mut WorldState, session: SessionId) -> Reply
    ensures told { world_answer world.old session step.Home ≡ Ok (leaving world.new result) }
{
    home(&mut world.namespace, session);
    Reply::Done
}

/// Opens the file at the path (POSIX.1-2017, open). Where nothing stands there, it is made if the flags
/// ask for that.
///
/// # Errors
/// The fault of the path; `EINVAL` for neither reading nor writing, or cutting without writing; `ENOENT`
/// or `ENOTDIR` of the walk; `EISDIR`; `EEXIST`; `ENOENT`; `EROFS`; `EMFILE` for a session with 32
/// references; `ENOSPC` for want of a node, a slot or a cell.
pub fn open_in(
    world: &mut WorldState,
    alloc: Global,
    session: SessionId,
    path: &Bytes,
    flags: OpenFlags,
) -> Result<Reply, Stop>
    requires { IsSized world.old.namespace }
    ensures told { Gives (leaving world.new) result (world_answer world.old session (step.Open path.now flags)) }
    ensures err { OnErr result (world.new ≡ world.old) }
{
    let (reply, change) = open(&mut world.namespace, alloc, session, path, flags)?;
    apply(world, change);
    Ok(reply)
}

/// Gives up an open file (POSIX.1-2017, close). A file without a name and another reference goes.
///
/// # Errors
/// `EBADF` where the session has no such open file.
pub fn close_in(world: &mut WorldState, session: SessionId, hold: &HoldId) -> Result<Reply, Stop>
    ensures told { Gives (leaving world.new) result (world_answer world.old session (step.Close hold.now)) }
    ensures err { OnErr result (world.new ≡ world.old) }
{
    let change = give_up(&mut world.namespace, session, hold, &Role::Open)?;
    apply(world, change);
    Ok(Reply::Done)
}

/// Gives up a mapping (POSIX.1-2017, munmap). A file without a name and another reference goes.
///
/// # Errors
/// `EBADF` where the session has no such mapping.
pub fn unmap_in(world: &mut WorldState, session: SessionId, hold: &HoldId) -> Result<Reply, Stop>
    ensures told { Gives (leaving world.new) result (world_answer world.old session (step.Unmap hold.now)) }
    ensures err { OnErr result (world.new ≡ world.old) }
{
    let change = give_up(&mut world.namespace, session, hold, &Role::Map)?;
    apply(world, change);
    Ok(Reply::Done)
}

/// Refers to an open file by a mapping (POSIX.1-2017, mmap, with shared pages).
///
/// # Errors
/// `EBADF` where the session has no such open file; `ENODEV` for a character device; `EMFILE` for a
/// session with 32 references.
pub fn map_in(world: &mut WorldState, session: SessionId, hold: &HoldId) -> Result<Reply, Stop>
    ensures told { Gives (leaving world.new) result (world_answer world.old session (step.Map hold.now)) }
    ensures err { OnErr result (world.new ≡ world.old) }
{
    let hold = map(&mut world.namespace, session, hold)?;
    Ok(Reply::Held { hold })
}
