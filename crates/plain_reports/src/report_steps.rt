//! The steps that list what there is.

ghost use Rattle.vfs_base.specs.declared.step.Step.TheVariants as step;
ghost use Rattle.vfs_model.specs.Gives.{Gives};
ghost use Rattle.vfs_model.specs.Sizes.{IsSized};
ghost use Rattle.plain_nodes.specs.WorldAnswer.{leaving, world_answer};

use crate::holders::holder_lines;
use crate::tables::{cell_files, device_lines, mount_lines};
use std::alloc::Global;
use vfs_base::{Reply, SessionId};
use vfs_model::{Stop, WorldState};

/// The mounts in the order of mounting, `/` first, each with its numbers of nodes and of spare
/// nodes or cells. Nothing refuses it.
pub fn mounts_in(world: &WorldState, alloc: Global, session: SessionId) -> Result<Reply, Stop>
    requires { IsSized world.now.namespace }
    ensures told { Gives (leaving world.now) result (world_answer world.now session step.Mounts) }
{
    let lines = mount_lines(&world.namespace, alloc)?;
    Ok(Reply::MountList { lines })
}

/// How many holders each path has that has any, in the order of paths, and then each file without a
/// name, by slot. Nothing refuses it.
pub fn dentries_in(world: &WorldState, alloc: Global, session: SessionId) -> Result<Reply, Stop>
    requires { IsSized world.now.namespace }
    ensures told { Gives (leaving world.now) result (world_answer world.now session step.Dentries) }
{
    let lines = holder_lines(&world.namespace, alloc)?;
    Ok(Reply::Holders { lines })
}

/// The files of mounted volumes that stand at a path, by slot. Nothing refuses it.
pub fn cells_in(world: &WorldState, alloc: Global, session: SessionId) -> Result<Reply, Stop>
    ensures told { Gives (leaving world.now) result (world_answer world.now session step.Cells) }
{
    let files = cell_files(&world.namespace, alloc)?;
    Ok(Reply::Files { files })
}

/// The volumes, the character devices and the roms, each in the order handed in, and whether each is
/// mounted. Nothing refuses it.
pub fn devices_in(world: &WorldState, alloc: Global, session: SessionId) -> Result<Reply, Stop>
    ensures told { Gives (leaving world.now) result (world_answer world.now session step.Devices) }
{
    let lines = device_lines(&world.namespace, alloc)?;
    Ok(Reply::DeviceList { lines })
}
