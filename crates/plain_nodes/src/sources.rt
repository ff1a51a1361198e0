//! Types and sources of mounts: the volumes and roms by name, and which of them a mount has.

ghost use Rattle.std.specs.Prelude.{◌≡◌, ◌&&◌};
ghost use Rattle.std.specs.List.{list_any, position_or_len};
ghost use Rattle.vfs_model.specs.Content.{is_mounted, rom_at, same_type};
ghost use Rattle.vfs_model.specs.FileLife.{volume_named};
ghost use Rattle.vfs_model.specs.Namespace.{same_bytes};
ghost use Rattle.vfs_model.specs.OpenStep.{kind_of};

use vfs_base::{FsType, Kind};
use vfs_model::{Mount, Namespace, RomImage, VolumeState};

/// The place of the volume with this name, or the number of volumes.
pub fn volume_named(namespace: &Namespace, name: &[u8]) -> usize
    ensures { result ≡ volume_named namespace.now name.now }
{
    place_of_volume(namespace.volumes.as_slice(), name)
}

fn place_of_volume(volumes: &[VolumeState], name: &[u8]) -> usize
    ensures { result ≡ position_or_len (λ volume. same_bytes volume.name name.now) volumes.now }
{
    let mut place = 0;
    for volume in volumes {
        if volume.name.as_bytes() == name {
            return place;
        }
        place += 1;
    }
    place
}

/// Whether a volume has this name.
pub fn has_volume(volumes: &[VolumeState], name: &[u8]) -> bool
    ensures { result ≡ list_any (λ volume. same_bytes volume.name name.now) volumes.now }
{
    volumes.iter().any(|volume| volume.name.as_bytes() == name)
}

/// The place of the rom with this name, or the number of roms.
pub fn rom_at(namespace: &Namespace, name: &[u8]) -> usize
    ensures { result ≡ rom_at namespace.now name.now }
{
    place_of_rom(namespace.roms.as_slice(), name)
}

fn place_of_rom(roms: &[RomImage], name: &[u8]) -> usize
    ensures { result ≡ position_or_len (λ image. same_bytes image.name name.now) roms.now }
{
    let mut place = 0;
    for image in roms {
        if image.name.as_bytes() == name {
            return place;
        }
        place += 1;
    }
    place
}

/// Whether a mount of this type has this source.
pub fn is_mounted(namespace: &Namespace, fs: FsType, source: &[u8]) -> bool
    ensures { result ≡ is_mounted namespace.now fs source.now }
{
    is_of(&namespace.root, fs, source) || has_mount_of(namespace.mounts.as_slice(), fs, source)
}

fn has_mount_of(mounts: &[Mount], fs: FsType, source: &[u8]) -> bool
    ensures { result ≡ list_any (λ mount. same_type mount.fs fs && same_bytes mount.source source.now) mounts.now }
{
    mounts.iter().any(|mount| is_of(mount, fs, source))
}

fn is_of(mount: &Mount, fs: FsType, source: &[u8]) -> bool
    ensures { result ≡ (same_type mount.now.fs fs && same_bytes mount.now.source source.now) }
{
    same_type(mount.fs, fs) && mount.source.as_slice() == source
}

/// The kind of the files of a type of file system.
pub fn kind_of(fs: FsType) -> Kind
    ensures { result ≡ kind_of fs }
{
    match fs {
        FsType::Tmp => Kind::Tmp,
        FsType::Rom => Kind::Rom,
        FsType::Cell => Kind::Cell,
        FsType::Dev => Kind::Chr,
    }
}

/// Whether the types are the same.
pub fn same_type(a: FsType, b: FsType) -> bool
    ensures { result ≡ same_type a b }
{
    match a {
        FsType::Tmp => matches!(b, FsType::Tmp),
        FsType::Rom => matches!(b, FsType::Rom),
        FsType::Cell => matches!(b, FsType::Cell),
        FsType::Dev => matches!(b, FsType::Dev),
    }
}
