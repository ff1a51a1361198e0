//! The steps that list mounts, files of cells, and devices.

ghost use Rattle.std.specs.Prelude.{◌≡◌, ◌∷◌, [], ◌++◌, ◌≤◌, map, filter_map, flat_map, filter, length, count_by, option_to_list, IfOk, OnOk};
ghost use Rattle.std.specs.FinMap.Entries.{put};
ghost use Rattle.std.specs.Ordering.{nat_cmp};
ghost use Rattle.vfs_base.specs.declared.kinds.DeviceClass.TheVariants as class;
ghost use Rattle.vfs_base.specs.declared.kinds.FsType.TheVariants as fs;
ghost use Rattle.vfs_base.specs.declared.reply.Reply.TheVariants as reply;
ghost use Rattle.vfs_model.specs.Content.{is_mounted, same_type};
ghost use Rattle.vfs_model.specs.Namespace.{all_mounts, tree_of};
ghost use Rattle.vfs_model.specs.Tables.{by_row, cell_files, device_lines, file_of_node, mount_line, node_count, spare_count};
ghost use Rattle.vfs_model.specs.Sizes.{IsSized};

use plain_nodes::lookup::tree_of;
use plain_nodes::sources::{is_mounted, same_type, volume_named};
use std::alloc::Global;
use std::collections::BTreeMap;
use vfs_base::{
    DeviceClass, DeviceLine, FileId, FsType, List, MountLine, NODES, NoMemory, NodeKind, Path,
    RowId,
};
use vfs_model::{DeviceState, Mount, Namespace, RomImage, VolumeState};

/// The mounts, in the order of mounting.
pub fn mount_lines(namespace: &Namespace, alloc: Global) -> Result<List<MountLine>, NoMemory>
    requires { IsSized namespace.now }
    ensures { IfOk result (λ lines. lines ≡ map (mount_line namespace.now) (all_mounts namespace.now)) }
{
    let mut lines = List::new(alloc);
    lines.push(mount_line(namespace, &namespace.root)?)?;
    for mount in namespace.mounts.as_slice() {
        lines.push(mount_line(namespace, mount)?)?;
    }
    Ok(lines)
}

fn mount_line(namespace: &Namespace, mount: &Mount) -> Result<MountLine, NoMemory>
    requires { IsSized namespace.now }
    ensures { IfOk result (λ line. line ≡ mount_line namespace.now mount.now) }
{
    let nodes = node_count(namespace, mount);
    let spare = spare_count(namespace, mount);
    Ok(MountLine {
        source: mount.source.clone()?,
        fs: mount.fs,
        nodes,
        spare,
        point: mount.point.copy()?,
    })
}

fn node_count(namespace: &Namespace, mount: &Mount) -> u16
    requires { IsSized namespace.now }
    ensures value { result ≡ node_count namespace.now mount.now }
    ensures most { result ≤ 4096 }
{
    tree_of(namespace, mount.number).len() as u16
}

fn spare_count(namespace: &Namespace, mount: &Mount) -> u16
    requires { IsSized namespace.now }
    ensures { result ≡ spare_count namespace.now mount.now mount.now.fs }
{
    match mount.fs {
        FsType::Tmp => NODES as u16 - node_count(namespace, mount),
        FsType::Cell => {
            let volume = volume_named(namespace, mount.source.as_slice());
            match namespace.volumes.as_slice().get(volume) {
                Some(volume) => true_count(volume.spare.as_slice()) as u16,
                None => 0,
            }
        }
        FsType::Rom | FsType::Dev => 0,
    }
}

fn true_count(tests: &[bool]) -> usize
    ensures value { result ≡ count_by (λ test. test) tests.now }
    ensures most { result ≤ length tests.now }
{
    tests.iter().filter(|test| **test).count()
}

/// Volumes, then character devices, then roms, each in the order handed in.
pub fn device_lines(namespace: &Namespace, alloc: Global) -> Result<List<DeviceLine>, NoMemory>
    ensures { IfOk result (λ lines. lines ≡ device_lines namespace.now) }
{
    let mut lines = List::new(alloc);
    push_volumes(&mut lines, namespace)?;
    push_devices(&mut lines, namespace)?;
    push_roms(&mut lines, namespace)?;
    Ok(lines)
}

fn push_volumes(lines: &mut List<DeviceLine>, namespace: &Namespace) -> Result<(), NoMemory>
    ensures { OnOk result (lines.new ≡ lines.old
        ++ map (λ volume. record { name = volume.name; class = class.Block; mounted = is_mounted namespace.now fs.Cell volume.name }) namespace.now.volumes) }
{
    for volume in namespace.volumes.as_slice() {
        lines.push(volume_line(namespace, volume)?)?;
    }
    Ok(())
}

fn volume_line(namespace: &Namespace, volume: &VolumeState) -> Result<DeviceLine, NoMemory>
    ensures { IfOk result (λ line. line ≡ record { name = volume.now.name; class = class.Block; mounted = is_mounted namespace.now fs.Cell volume.now.name }) }
{
    let mounted = is_mounted(namespace, FsType::Cell, volume.name.as_bytes());
    Ok(DeviceLine {
        name: volume.name.copy()?,
        class: DeviceClass::Block,
        mounted,
    })
}

fn push_devices(lines: &mut List<DeviceLine>, namespace: &Namespace) -> Result<(), NoMemory>
    ensures { OnOk result (lines.new ≡ lines.old
        ++ map (λ device. record { name = device.name; class = class.Char; mounted = device.is_out }) namespace.now.devices) }
{
    for device in namespace.devices.as_slice() {
        lines.push(device_line(device)?)?;
    }
    Ok(())
}

fn device_line(device: &DeviceState) -> Result<DeviceLine, NoMemory>
    ensures { IfOk result (λ line. line ≡ record { name = device.now.name; class = class.Char; mounted = device.now.is_out }) }
{
    Ok(DeviceLine {
        name: device.name.copy()?,
        class: DeviceClass::Char,
        mounted: device.is_out,
    })
}

fn push_roms(lines: &mut List<DeviceLine>, namespace: &Namespace) -> Result<(), NoMemory>
    ensures { OnOk result (lines.new ≡ lines.old
        ++ map (λ image. record { name = image.name; class = class.Rom; mounted = is_mounted namespace.now fs.Rom image.name }) namespace.now.roms) }
{
    for image in namespace.roms.as_slice() {
        lines.push(rom_line(namespace, image)?)?;
    }
    Ok(())
}

fn rom_line(namespace: &Namespace, image: &RomImage) -> Result<DeviceLine, NoMemory>
    ensures { IfOk result (λ line. line ≡ record { name = image.now.name; class = class.Rom; mounted = is_mounted namespace.now fs.Rom image.now.name }) }
{
    let mounted = is_mounted(namespace, FsType::Rom, image.name.as_bytes());
    Ok(DeviceLine {
        name: image.name.copy()?,
        class: DeviceClass::Rom,
        mounted,
    })
}

/// The linked files of cell mounts, by row.
pub fn cell_files(namespace: &Namespace, alloc: Global) -> Result<List<FileId>, NoMemory>
    ensures { IfOk result (λ files. files ≡ by_row (cell_files namespace.now)) }
{
    let files = linked_on_cells(namespace, alloc)?;
    by_row(alloc, files.as_slice())
}

fn linked_on_cells(namespace: &Namespace, alloc: Global) -> Result<List<FileId>, NoMemory>
    ensures { IfOk result (λ files. files ≡ cell_files namespace.now) }
{
    let mut files = List::new(alloc);
    push_linked(&mut files, namespace, &namespace.root)?;
    for mount in namespace.mounts.as_slice() {
        push_linked(&mut files, namespace, mount)?;
    }
    Ok(files)
}

// Puts the files of the mount at the end, if it is a cell mount.
fn push_linked(
    files: &mut List<FileId>,
    namespace: &Namespace,
    mount: &Mount,
) -> Result<(), NoMemory>
    ensures { OnOk result (files.new ≡ files.old
        ++ flat_map (λ mount. filter_map (λ entry. file_of_node entry.1) (tree_of namespace.now mount.number)) (filter (λ mount. same_type mount.fs fs.Cell) (mount.now ∷ []))) }
{
    if !same_type(mount.fs, FsType::Cell) {
        return Ok(());
    }
    push_files(files, tree_of(namespace, mount.number))
}

fn push_files(files: &mut List<FileId>, tree: &[(Path, NodeKind)]) -> Result<(), NoMemory>
    ensures { OnOk result (files.new ≡ files.old ++ filter_map (λ entry. file_of_node entry.1) tree.now) }
{
    for entry in tree {
        push_file(files, entry.1)?;
    }
    Ok(())
}

fn push_file(files: &mut List<FileId>, node: NodeKind) -> Result<(), NoMemory>
    ensures { OnOk result (files.new ≡ files.old ++ option_to_list (file_of_node node)) }
{
    match node {
        NodeKind::Dir => Ok(()),
        NodeKind::File { file, .. } => files.push(file),
    }
}

fn by_row(alloc: Global, files: &[FileId]) -> Result<List<FileId>, NoMemory>
    ensures { IfOk result (λ found. found ≡ by_row files.now) }
{
    let mut found: BTreeMap<RowId, FileId> = BTreeMap::new(alloc);
    for file in files {
        insert_file(&mut found, *file)?;
    }
    into_values(alloc, found)
}

#[tactic(auto, using(crate::proofs::Inserts::insert_as_put))]
fn insert_file(found: &mut BTreeMap<RowId, FileId>, file: FileId) -> Result<(), NoMemory>
    ensures { OnOk result (found.new.entries ≡ put nat_cmp file.row file found.old.entries) }
{
    found.insert(file.row, file)?;
    Ok(())
}

fn into_values(alloc: Global, found: BTreeMap<RowId, FileId>) -> Result<List<FileId>, NoMemory>
    ensures { IfOk result (λ files. files ≡ map (λ entry. entry.1) found.entries) }
{
    let mut files = List::new(alloc);
    for entry in found {
        files.push(entry.1)?;
    }
    Ok(files)
}
