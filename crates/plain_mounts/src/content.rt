//! What the types of file systems and their sources offer to a mount.

ghost use Rattle.std.specs.Prelude.{◌≡◌, ◌∷◌, [], ◌++◌, map, ◌≤◌, cond, is_some, slice_index_or, IfOk, OnOk};
ghost use Rattle.std.specs.FinMap.Entries.{put};
ghost use Rattle.vfs_base.specs.Path.{path_cmp};
ghost use Rattle.vfs_model.specs.Content.{content_of, device_content, file_count, fs_type_of, kept_origin, no_rom, rom_origin};
ghost use Rattle.vfs_model.specs.FileLife.{volume_at};
ghost use Rattle.vfs_model.specs.declared.namespace.Origin.TheVariants as origin;
ghost use Rattle.plain_mounts.specs.Mounting.{brought_by, devices_from, entry_contents};

use plain_files::origin_content;
use plain_nodes::sources::{rom_at, volume_named};
use plain_nodes::trees::put_entry;
use std::alloc::Global;
use vfs_base::{Bytes, FsType, List, NoMemory, Path, copy_bytes};
use vfs_model::{DeviceState, KeptNode, Namespace, Origin, RomImage, RomNode};

/// At each path a folder (`None`), or a file by what it begins with.
pub type Content = List<(Path, Option<Origin>)>;

/// The type that a word names.
pub fn fs_type_of(word: &[u8]) -> Option<FsType>
    ensures { result ≡ fs_type_of word.now }
{
    if word == b"tmp".as_slice() {
        return Some(FsType::Tmp);
    }
    if word == b"rom".as_slice() {
        return Some(FsType::Rom);
    }
    if word == b"cell".as_slice() {
        return Some(FsType::Cell);
    }
    if word == b"devfs".as_slice() {
        return Some(FsType::Dev);
    }
    None
}

/// What a mount of this type and source begins with, in the order of paths.
pub fn content_of(
    namespace: &Namespace,
    alloc: Global,
    fs: FsType,
    source: &[u8],
) -> Result<Content, NoMemory>
    ensures { IfOk result (λ content. content ≡ content_of namespace.now fs source.now) }
{
    match fs {
        FsType::Tmp => Ok(List::new(alloc)),
        FsType::Rom => {
            let rom = rom_at(namespace, source);
            rom_entries(alloc, rom, rom_nodes(namespace, rom))
        }
        FsType::Cell => {
            let volume = volume_named(namespace, source);
            cell_entries(alloc, volume, kept_names(namespace, volume))
        }
        FsType::Dev => device_content(alloc, namespace.devices.as_slice()),
    }
}

fn rom_nodes(namespace: &Namespace, rom: usize) -> &[(Path, RomNode)]
    ensures { result.now ≡ (slice_index_or namespace.now.roms rom no_rom).nodes }
{
    match namespace.roms.as_slice().get(rom) {
        Some(image) => image.nodes.as_slice(),
        None => &[],
    }
}

fn rom_entries(alloc: Global, rom: usize, nodes: &[(Path, RomNode)]) -> Result<Content, NoMemory>
    ensures { IfOk result (λ content. content ≡ map (λ entry. (entry.0, rom_origin rom entry.0 entry.1)) nodes.now) }
{
    let mut content = List::new(alloc);
    for entry in nodes {
        let origin = rom_origin(rom, &entry.0, &entry.1)?;
        content.push((entry.0.copy()?, origin))?;
    }
    Ok(content)
}

fn rom_origin(rom: usize, path: &Path, node: &RomNode) -> Result<Option<Origin>, NoMemory>
    ensures { IfOk result (λ origin. origin ≡ rom_origin rom path.now node.now) }
{
    match node {
        RomNode::Dir => Ok(None),
        RomNode::File { .. } => {
            let path = path.copy()?;
            Ok(Some(Origin::Rom { rom, path }))
        }
    }
}

fn kept_names(namespace: &Namespace, volume: usize) -> &[(Path, KeptNode)]
    ensures { result.now ≡ (volume_at namespace.now volume).kept }
{
    match namespace.volumes.as_slice().get(volume) {
        Some(state) => state.kept.as_slice(),
        None => &[],
    }
}

fn cell_entries(
    alloc: Global,
    volume: usize,
    kept: &[(Path, KeptNode)],
) -> Result<Content, NoMemory>
    ensures { IfOk result (λ content. content ≡ map (λ entry. (entry.0, kept_origin volume entry.1)) kept.now) }
{
    let mut content = List::new(alloc);
    for entry in kept {
        content.push((entry.0.copy()?, kept_origin(volume, &entry.1)))?;
    }
    Ok(content)
}

fn kept_origin(volume: usize, kept: &KeptNode) -> Option<Origin>
    ensures { result ≡ kept_origin volume kept.now }
{
    match kept {
        KeptNode::Dir => None,
        KeptNode::File { cell } => Some(Origin::Cell {
            volume,
            cell: *cell,
        }),
    }
}

// One file for each character device.
fn device_content(alloc: Global, devices: &[DeviceState]) -> Result<Content, NoMemory>
    ensures { IfOk result (λ content. content ≡ devices_from [] 0 devices.now) }
{
    let mut content = List::new(alloc);
    for place in 0..devices.len() {
        put_device(&mut content, alloc, place, &devices[place])?;
    }
    Ok(content)
}

fn put_device(
    content: &mut Content,
    alloc: Global,
    place: usize,
    device: &DeviceState,
) -> Result<(), NoMemory>
    ensures { OnOk result (content.new ≡ put path_cmp (device.now.name ∷ []) (Some (origin.Device place)) content.old) }
{
    let mut path = Path::root(alloc);
    path.push(device.name.copy()?)?;
    put_entry(content, path, Some(Origin::Device { device: place }))
}

/// How many of the entries are files.
pub fn file_count(content: &[(Path, Option<Origin>)]) -> usize
    ensures { result ≡ file_count content.now }
{
    let mut count = 0;
    for entry in content {
        count += file_number(&entry.1);
    }
    count
}

// One where there is a file, else none.
fn file_number(origin: &Option<Origin>) -> usize
    ensures value { result ≡ cond (is_some origin.now) 1 0 }
    ensures most { result ≤ 1 }
{
    match origin {
        None => 0,
        Some(_) => 1,
    }
}

/// The bytes that the files of the content bring from roms, file by file, in memory of their own.
pub fn brought_by(
    alloc: Global,
    roms: &[RomImage],
    content: &[(Path, Option<Origin>)],
) -> Result<List<Bytes>, NoMemory>
    ensures { IfOk result (λ contents. contents ≡ brought_by roms.now content.now) }
{
    let mut contents = List::new(alloc);
    for entry in content {
        push_contents(&mut contents, alloc, roms, &entry.1)?;
    }
    Ok(contents)
}

fn push_contents(
    contents: &mut List<Bytes>,
    alloc: Global,
    roms: &[RomImage],
    origin: &Option<Origin>,
) -> Result<(), NoMemory>
    ensures { OnOk result (contents.new ≡ contents.old ++ entry_contents roms.now origin.now) }
{
    match origin {
        None => Ok(()),
        Some(origin) => contents.push(copy_bytes(alloc, origin_content(roms, origin))?),
    }
}
