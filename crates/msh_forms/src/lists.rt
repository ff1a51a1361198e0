//! The lists of mounts, devices and holders.

ghost use Rattle.std.specs.Prelude.{◌≡◌, IfOk, OnOk, ◌++◌, codes, decimal};
ghost use Rattle.std.specs.List.{flat_map};
ghost use Rattle.msh_forms.specs.Parts.{counts_text};
ghost use Rattle.vfs_model.specs.MountCommands.{class_name as name_of_class, device_text, holder_text, mount_text, place_text, type_name as name_of_type, use_name as name_of_use};

use std::alloc::Global;
use vfs_base::{
    Bytes, DeviceClass, DeviceLine, FsType, HolderLine, HolderPlace, MountLine, NoMemory,
    push_number, push_printed,
};

fn type_name<'a>(fs: FsType) -> &'a [u8]
    ensures { result.now ≡ name_of_type fs }
{
    match fs {
        FsType::Tmp => b"tmp",
        FsType::Rom => b"rom",
        FsType::Cell => b"cell",
        FsType::Dev => b"devfs",
    }
}

// Appends a mount's type and numbers: its nodes, and how many more files it can hold.
fn push_counts(out: &mut Bytes, mount: &MountLine) -> Result<(), NoMemory>
    ensures { OnOk result (out.new ≡ out.old ++ counts_text mount.now) }
{
    out.extend_from_slice(type_name(mount.fs))?;
    out.push(b' ')?;
    push_number(out, u64::from(mount.nodes))?;
    out.push(b' ')?;
    push_number(out, u64::from(mount.spare))
}

fn push_mount(out: &mut Bytes, mount: &MountLine) -> Result<(), NoMemory>
    ensures { OnOk result (out.new ≡ out.old ++ mount_text mount.now) }
{
    out.extend_from_slice(mount.source.as_slice())?;
    out.push(b' ')?;
    push_counts(out, mount)?;
    out.push(b' ')?;
    push_printed(out, &mount.point)?;
    out.push(b'\n')
}

/// A line for each mount: its source word, type, nodes, spare files and point.
pub fn mounts_text(alloc: Global, mounts: &[MountLine]) -> Result<Bytes, NoMemory>
    ensures { IfOk result (λ text. text ≡ flat_map mount_text mounts.now) }
{
    let mut text = Bytes::new(alloc);
    for mount in mounts {
        push_mount(&mut text, mount)?;
    }
    Ok(text)
}

fn class_name<'a>(class: DeviceClass) -> &'a [u8]
    ensures { result.now ≡ name_of_class class }
{
    match class {
        DeviceClass::Block => b"block",
        DeviceClass::Char => b"char",
        DeviceClass::Rom => b"rom",
    }
}

fn use_name<'a>(mounted: bool) -> &'a [u8]
    ensures { result.now ≡ name_of_use mounted }
{
    if mounted { b"mounted" } else { b"free" }
}

fn push_device(out: &mut Bytes, device: &DeviceLine) -> Result<(), NoMemory>
    ensures { OnOk result (out.new ≡ out.old ++ device_text device.now) }
{
    out.extend_from_slice(device.name.as_bytes())?;
    out.push(b' ')?;
    out.extend_from_slice(class_name(device.class))?;
    out.push(b' ')?;
    out.extend_from_slice(use_name(device.mounted))?;
    out.push(b'\n')
}

/// A line for each device: its name, its class, and whether a mount uses it.
pub fn devices_text(alloc: Global, devices: &[DeviceLine]) -> Result<Bytes, NoMemory>
    ensures { IfOk result (λ text. text ≡ flat_map device_text devices.now) }
{
    let mut text = Bytes::new(alloc);
    for device in devices {
        push_device(&mut text, device)?;
    }
    Ok(text)
}

fn push_place(out: &mut Bytes, place: &HolderPlace) -> Result<(), NoMemory>
    ensures { OnOk result (out.new ≡ out.old ++ place_text place.now) }
{
    match place {
        HolderPlace::At { path } => push_printed(out, path),
        HolderPlace::Row { row } => {
            out.extend_from_slice(b"(row ")?;
            push_number(out, u64::from(row.number()))?;
            out.push(b')')
        }
    }
}

fn push_holder(out: &mut Bytes, holder: &HolderLine) -> Result<(), NoMemory>
    ensures { OnOk result (out.new ≡ out.old ++ holder_text holder.now) }
{
    push_place(out, &holder.place)?;
    out.push(b' ')?;
    push_number(out, u64::from(holder.count))?;
    out.push(b'\n')
}

/// A line for each place that is held: a path or a vnode slot, and how often it is held.
pub fn holders_text(alloc: Global, holders: &[HolderLine]) -> Result<Bytes, NoMemory>
    ensures { IfOk result (λ text. text ≡ flat_map holder_text holders.now) }
{
    let mut text = Bytes::new(alloc);
    for holder in holders {
        push_holder(&mut text, holder)?;
    }
    Ok(text)
}
