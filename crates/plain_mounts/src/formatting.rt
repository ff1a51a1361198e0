//! Formatting a volume.

ghost use Rattle.std.specs.Prelude.{◌≡◌, [], ◌<◌, OnOk, OnErr, length, replicate, slice_index_or, slice_set, true};
ghost use Rattle.vfs_base.specs.declared.reply.Reply.TheVariants as reply;
ghost use Rattle.vfs_model.specs.FileLife.{no_volume, volume_named};
ghost use Rattle.vfs_model.specs.UmountSteps.{format_volume, mkfs_step};
ghost use Rattle.vfs_model.specs.Gives.{Gives};

use plain_nodes::sources::{has_volume, is_mounted, volume_named};
use std::alloc::Global;
use vfs_base::{Bytes, Errno, FsType, List, NoMemory};
use vfs_model::{Namespace, Stop, VolumeState, refuse_when};

/// Takes all names from a volume that no mount has, so that each of its cells is spare.
///
/// The bytes on its cells are dropped with the homes of the world.
#[tactic(auto, unfolding(vfs_model::specs::UmountSteps::mkfs_step))]
pub fn mkfs(namespace: &mut Namespace, alloc: Global, name: &Bytes) -> Result<(), Stop>
    ensures told { Gives (λ _. record { reply = reply.Done; next = namespace.new; changes = [] }) result (mkfs_step namespace.old name.now) }
    ensures err { OnErr result (namespace.new ≡ namespace.old) }
{
    refuse_when(
        Errno::ENXIO,
        !has_volume(namespace.volumes.as_slice(), name.as_slice()),
    )?;
    refuse_when(
        Errno::EBUSY,
        is_mounted(namespace, FsType::Cell, name.as_slice()),
    )?;
    format_volume(namespace, alloc, name.as_slice())?;
    Ok(())
}

// Takes all names from the volume of this name, so that each of its cells is spare.
fn format_volume(namespace: &mut Namespace, alloc: Global, name: &[u8]) -> Result<(), NoMemory>
    ensures ok { OnOk result (namespace.new ≡ format_volume namespace.old (volume_named namespace.old name.now)) }
    ensures err { OnErr result (namespace.new ≡ namespace.old) }
{
    let place = volume_named(namespace, name);
    format_at(&mut namespace.volumes, alloc, place)
}

fn format_at(volumes: &mut List<VolumeState>, alloc: Global, place: usize) -> Result<(), NoMemory>
    ensures ok { OnOk result (let volume = slice_index_or volumes.old place no_volume in
        volumes.new ≡ slice_set volumes.old place (record volume { spare = replicate (length volume.pages) true; kept = [] })) }
    ensures err { OnErr result (volumes.new ≡ volumes.old) }
{
    let volumes = volumes.as_mut_slice();
    if volumes.len() <= place {
        return Ok(());
    }
    format(&mut volumes[place], alloc)
}

fn format(volume: &mut VolumeState, alloc: Global) -> Result<(), NoMemory>
    ensures ok { OnOk result (volume.new ≡ record volume.old { spare = replicate (length volume.old.pages) true; kept = [] }) }
    ensures err { OnErr result (volume.new ≡ volume.old) }
{
    let spare = Vec::from_elem(alloc, true, volume.pages.len())?;
    volume.spare = List::from_vec(spare);
    volume.kept.clear();
    Ok(())
}
