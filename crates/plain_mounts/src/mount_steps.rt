//! The steps on mounts and volumes, with their changes of rows.

ghost use Rattle.std.specs.Prelude.{◌≡◌, true, IfOk, OnErr};
ghost use Rattle.vfs_base.specs.declared.step.Step.TheVariants as step;
ghost use Rattle.vfs_model.specs.NamespaceStep.{shutdown_step};
ghost use Rattle.vfs_model.specs.World.{namespace_part};
ghost use Rattle.vfs_model.specs.Gives.{Gives};
ghost use Rattle.vfs_model.specs.Sizes.{IsSized};
ghost use Rattle.plain_nodes.specs.WorldAnswer.{leaving, world_answer};

use crate::formatting::mkfs;
use crate::mounting::{Mounted, mount};
use crate::unmounting::{umount, unmount_all};
use plain_files::empty_cells;
use plain_nodes::applying::{apply_all, apply_with};
use plain_nodes::sources::volume_named;
use std::alloc::Global;
use vfs_base::{Bytes, Errno, Mark, NoMemory, Reply, SessionId};
use vfs_model::{Namespace, Stop, WorldState};

/// Takes all names from a volume that no mount has, and drops the bytes on its cells.
///
/// # Errors
/// `ENXIO` where no volume has the name; `EBUSY` where a mount has the volume.
pub fn mkfs_in(
    world: &mut WorldState,
    alloc: Global,
    session: SessionId,
    name: &Bytes,
) -> Result<Reply, Stop>
    ensures told { Gives (leaving world.new) result (world_answer world.old session (step.Mkfs name.now)) }
    ensures err { OnErr result (world.new ≡ world.old) }
{
    mkfs(&mut world.namespace, alloc, name)?;
    let volume = volume_named(&world.namespace, name.as_slice());
    empty_cells(&mut world.homes, volume);
    Ok(Reply::Done)
}

/// Mounts a file system of the type that `fs` names on the empty folder at the point.
///
/// # Errors
/// The fault of the point's path; `ENODEV` for another type; `ENOENT` or `ENOTDIR` of the walk;
/// `ENOENT`; `ENOTDIR` for a file; `EBUSY` where a mount or a working directory is at the point or below
/// it; `ENOTEMPTY`; `ENOSPC` for 16 mounts; `ENXIO` for no such source, or a volume after an end that a
/// device failed; `EBUSY` where the source, or another devfs, is mounted; `ENOSPC` where fewer slots are
/// free than the source has files.
pub fn mount_in(
    world: &mut WorldState,
    alloc: Global,
    session: SessionId,
    source: &Bytes,
    point: &Bytes,
    fs: &Bytes,
) -> Result<Reply, Stop>
    requires { IsSized world.old.namespace }
    ensures told { Gives (leaving world.new) result (world_answer world.old session (step.Mount source.now point.now fs.now)) }
    ensures err { OnErr result (world.new ≡ world.old) }
{
    let Mounted { changes, contents } = mount(
        &mut world.namespace,
        alloc,
        session,
        source,
        point,
        fs,
    )?;
    apply_with(world, &changes, contents);
    Ok(Reply::Done)
}

/// Unmounts the file system with this point. Its files are freed, by slot; a volume keeps its names and
/// cells.
///
/// # Errors
/// The fault of the point's path; `EINVAL` where no mount has the point; `EBUSY` where another mount
/// lies below it, a reference names it, or a working directory lies in it.
pub fn umount_in(
    world: &mut WorldState,
    alloc: Global,
    session: SessionId,
    point: &Bytes,
) -> Result<Reply, Stop>
    requires { IsSized world.old.namespace }
    ensures told { Gives (leaving world.new) result (world_answer world.old session (step.Umount point.now)) }
    ensures err { OnErr result (world.new ≡ world.old) }
{
    let changes = umount(&mut world.namespace, alloc, session, point)?;
    apply_all(world, &changes);
    Ok(Reply::Done)
}

/// The end: the references that are left go, and each session into `/`; then all mounts but `/` go, the
/// last one first, and `/` loses its nodes. After a fault of a device this is done all the same, the reply
/// is `EIO`, and the namespace remembers it; under want of memory the reply is `ENOMEM`, and nothing changes.
#[tactic(auto, unfolding(vfs_model::specs::NamespaceStep::shutdown_step))]
pub fn shut_down(world: &mut WorldState, alloc: Global, mark: Mark) -> Result<Reply, NoMemory>
    requires { IsSized world.old.namespace }
    ensures told { IfOk result (λ reply. namespace_part world.old (shutdown_step world.old.namespace mark) step.Shutdown ≡ leaving world.new reply) }
    ensures err { OnErr result (world.new ≡ world.old) }
{
    match mark {
        Mark::Clear => {
            let changes = unmount_all(&mut world.namespace, alloc)?;
            apply_all(world, &changes);
            Ok(Reply::Done)
        }
        Mark::Fault { .. } => {
            let changes = unmount_all(&mut world.namespace, alloc)?;
            remember_stop(&mut world.namespace);
            apply_all(world, &changes);
            Ok(Reply::Refused { errno: Errno::EIO })
        }
        Mark::NoMem { .. } => Ok(Reply::Refused {
            errno: Errno::ENOMEM,
        }),
    }
}

// A Shutdown has replied that a device failed.
fn remember_stop(namespace: &mut Namespace)
    ensures next { namespace.new ≡ record namespace.old { is_stopped = true } }
{
    namespace.is_stopped = true;
}
