//! Mounting a file system.

ghost use Rattle.std.specs.Prelude.{◌≡◌, ◌==◌, ◌&&◌, ◌||◌, ◌+◌, ◌<◌, ◌≤◌, ◌++◌, ◌∷◌, [], cond, length, map, nat_le, List, vec_len, vec_capacity, IfOk, OnOk, OnErr};
ghost use Rattle.std.specs.List.{list_any};
ghost use Rattle.vfs_base.specs.declared.kinds.FsType.TheVariants as fs_type;
ghost use Rattle.vfs_base.specs.declared.reply.Reply.TheVariants as reply;
ghost use Rattle.vfs_model.specs.Content.{content_of, file_count, same_type};
ghost use Rattle.vfs_model.specs.FileLife.{is_free_row};
ghost use Rattle.vfs_model.specs.Lookup.{has_folder_within, has_mount_below, is_point, with_tree};
ghost use Rattle.vfs_model.specs.MountStep.{add_mount, is_taken, is_without_source, least_free_mount, mount_at, mount_refusals, mount_step, without_kept};
ghost use Rattle.vfs_model.specs.Namespace.{all_mounts, same_bytes, tree_of};
ghost use Rattle.vfs_model.specs.declared.namespace.RomImage.{RomImage as ModelRom};
ghost use Rattle.plain_nodes.specs.Changes.{row_change};
ghost use Rattle.vfs_model.specs.Gives.{Gives};
ghost use Rattle.plain_nodes.specs.Contents.{contents_of};
ghost use Rattle.plain_mounts.specs.Mounting.{brought_by, free_count, free_in, with_mount};
ghost use Rattle.vfs_model.specs.Sizes.{IsSized};

use crate::binding::add_entries;
use crate::content::{Content, brought_by, content_of, file_count, fs_type_of};
use crate::leaving::set_kept;
use plain_nodes::asking::asked_path;
use plain_nodes::changes::Change;
use plain_nodes::lookup::{
    has_folder_within, has_mount_below, has_nodes, is_file, is_point, is_there, walk_refusal,
};
use plain_nodes::nodes::{set_tree, take_tree};
use plain_nodes::rows::is_free_row;
use plain_nodes::sources::{has_volume, is_mounted, same_type, volume_named};
use std::alloc::Global;
use vfs_base::{
    Bytes, Errno, FsType, List, MOUNTS, MountId, Name, NoMemory, NodeKind, Path, SessionId,
};
use vfs_model::{LiveFile, Mount, Namespace, RomImage, Stop, VolumeState, refuse_by, refuse_when};

/// Whether there is no such source.
fn is_without_source(namespace: &Namespace, fs: FsType, source: &[u8]) -> bool
    ensures { result ≡ is_without_source namespace.now fs source.now }
{
    match fs {
        FsType::Tmp | FsType::Dev => false,
        FsType::Rom => !has_rom(namespace.roms.as_slice(), source),
        FsType::Cell => !has_volume(namespace.volumes.as_slice(), source),
    }
}

fn has_rom(roms: &[RomImage], name: &[u8]) -> bool
    ensures { result ≡ list_any (λ image. same_bytes image.name name.now) roms.now }
{
    roms.iter().any(|image| image.name.as_bytes() == name)
}

/// Whether a mount has what this one would need for itself.
fn is_taken(namespace: &Namespace, fs: FsType, source: &[u8]) -> bool
    ensures { result ≡ is_taken namespace.now fs source.now }
{
    match fs {
        FsType::Tmp => false,
        FsType::Rom => is_mounted(namespace, FsType::Rom, source),
        FsType::Cell => is_mounted(namespace, FsType::Cell, source),
        FsType::Dev => {
            same_type(namespace.root.fs, FsType::Dev) || has_devfs(namespace.mounts.as_slice())
        }
    }
}

fn has_devfs(mounts: &[Mount]) -> bool
    ensures { result ≡ list_any (λ mount. same_type mount.fs fs_type.Dev) mounts.now }
{
    mounts.iter().any(|mount| same_type(mount.fs, FsType::Dev))
}

// How many rows are free.
fn free_count(namespace: &Namespace) -> usize
    ensures { result ≡ free_count namespace.now }
{
    free_in(
        namespace.live_files.as_slice(),
        namespace.generations.as_slice(),
    )
}

fn free_in(live_files: &[Option<LiveFile>], generations: &[u64]) -> usize
    ensures { result ≡ free_in 0 live_files.now generations.now }
{
    let mut later = generations;
    let mut count = 0;
    for life in live_files {
        let [generation, rest @ ..] = later else {
            return count;
        };
        count += free_number(life, *generation);
        later = rest;
    }
    count
}

// One where the row is free, else none.
fn free_number(life: &Option<LiveFile>, generation: u64) -> usize
    ensures value { result ≡ cond (is_free_row life.now generation) 1 0 }
    ensures most { result ≤ 1 }
{
    if is_free_row(life, generation) {
        return 1;
    }
    0
}

/// What refuses a mount on the path, in the order of the checks. The content is what it begins with.
#[tactic(auto, unfolding(vfs_model::specs::MountStep::mount_refusals))]
fn mount_refusals(
    namespace: &Namespace,
    path: &[Name],
    fs: FsType,
    source: &[u8],
    content: &Content,
) -> Result<(), Errno>
    requires { content.now ≡ content_of namespace.now fs source.now }
    ensures { result ≡ mount_refusals namespace.now path.now fs source.now }
{
    refuse_by(walk_refusal(namespace, path))?;
    refuse_when(Errno::ENOENT, !is_there(namespace, path))?;
    refuse_when(Errno::ENOTDIR, is_file(namespace, path))?;
    refuse_when(Errno::EBUSY, is_in_use(namespace, path))?;
    refuse_when(Errno::ENOTEMPTY, has_nodes(namespace, path))?;
    refuse_when(Errno::ENOSPC, has_all_mounts(namespace))?;
    refuse_when(Errno::ENXIO, is_source_missing(namespace, fs, source))?;
    refuse_when(Errno::EBUSY, is_taken(namespace, fs, source))?;
    let files = file_count(content.as_slice());
    refuse_when(Errno::ENOSPC, free_count(namespace) < files)
}

fn is_in_use(namespace: &Namespace, path: &[Name]) -> bool
    ensures { result ≡ (is_point namespace.now path.now || has_mount_below namespace.now path.now || has_folder_within namespace.now path.now) }
{
    is_point(namespace, path)
        || has_mount_below(namespace, path)
        || has_folder_within(namespace, path)
}

fn has_all_mounts(namespace: &Namespace) -> bool
    ensures { result ≡ nat_le 16 (length (all_mounts namespace.now)) }
{
    MOUNTS - 1 <= namespace.mounts.len()
}

fn is_source_missing(namespace: &Namespace, fs: FsType, source: &[u8]) -> bool
    ensures { result ≡ (is_without_source namespace.now fs source.now || (same_type fs fs_type.Cell && namespace.now.is_stopped)) }
{
    is_without_source(namespace, fs, source)
        || (same_type(fs, FsType::Cell) && namespace.is_stopped)
}

// The least number that no mount has.
#[tactic(auto, using(crate::proofs::Numbers::least_is_number))]
fn least_free_mount(namespace: &Namespace) -> MountId
    requires { length namespace.now.mounts ≤ 14 }
    ensures { result ≡ least_free_mount namespace.now }
{
    let Some(number) = MountId::new(least_free_number(namespace)) else {
        unreachable!();
    };
    number
}

#[tactic(auto, using(crate::proofs::Numbers::number_passed))]
fn least_free_number(namespace: &Namespace) -> u8
    ensures { result ≡ least_free_mount namespace.now }
{
    for number in 0..16 {
        if !has_number(namespace, number) {
            return number;
        }
    }
    16
}

fn has_number(namespace: &Namespace, number: u8) -> bool
    ensures { result ≡ list_any (λ mount. mount.number == number) (all_mounts namespace.now) }
{
    namespace.root.number.number() == number
        || has_mount_numbered(namespace.mounts.as_slice(), number)
}

fn has_mount_numbered(mounts: &[Mount], number: u8) -> bool
    ensures { result ≡ list_any (λ mount. mount.number == number) mounts.now }
{
    mounts.iter().any(|mount| mount.number.number() == number)
}

/// What a mount changes: the rows that it binds, and the bytes that their files bring from a rom.
#[derive(Debug, Drop)]
pub struct Mounted {
    pub changes: List<Change>,
    /// For each change the bytes of its file, in memory of their own.
    pub contents: List<Bytes>,
}

/// Mounts a file system of the type that `fs` names on the empty folder at the point.
pub fn mount(
    namespace: &mut Namespace,
    alloc: Global,
    session: SessionId,
    source: &Bytes,
    point: &Bytes,
    fs: &Bytes,
) -> Result<Mounted, Stop>
    requires { IsSized namespace.old }
    ensures contents { IfOk result (λ mounted. mounted.contents ≡ contents_of namespace.old.roms (map row_change mounted.changes)) }
    ensures told { Gives (λ mounted. record { reply = reply.Done; next = namespace.new; changes = map row_change mounted.changes }) result (mount_step namespace.old session source.now point.now fs.now) }
    ensures err { OnErr result (namespace.new ≡ namespace.old) }
    ensures roms { namespace.new.roms ≡ namespace.old.roms }
{
    mount_source(namespace, alloc, session, source, point, fs)
}

fn mount_source(
    namespace: &mut Namespace,
    alloc: Global,
    session: SessionId,
    source: &Bytes,
    point: &Bytes,
    fs: &Bytes,
) -> Result<Mounted, Stop>
    requires { IsSized namespace.old }
    ensures contents { IfOk result (λ mounted. mounted.contents ≡ contents_of namespace.old.roms (map row_change mounted.changes)) }
    ensures told { Gives (λ mounted. record { reply = reply.Done; next = namespace.new; changes = map row_change mounted.changes }) result (mount_step namespace.old session source.now point.now fs.now) }
    ensures err { OnErr result (namespace.new ≡ namespace.old) }
{
    let path = asked_path(namespace, alloc, session, point)?;
    let Some(fs) = fs_type_of(fs.as_slice()) else {
        return Err(Stop::Refusal(Errno::ENODEV));
    };
    mount_at(namespace, alloc, path, fs, source)
}

#[tactic(auto, using(crate::proofs::Starts::mounts_left, crate::proofs::Starts::rows_left), unfolding(vfs_model::specs::MountStep::mount_at))]
fn mount_at(
    namespace: &mut Namespace,
    alloc: Global,
    path: Path,
    fs: FsType,
    source: &Bytes,
) -> Result<Mounted, Stop>
    requires { IsSized namespace.old }
    ensures contents { IfOk result (λ mounted. mounted.contents ≡ contents_of namespace.old.roms (map row_change mounted.changes)) }
    ensures told { Gives (λ mounted. record { reply = reply.Done; next = namespace.new; changes = map row_change mounted.changes }) result (mount_at namespace.old path fs source.now) }
    ensures err { OnErr result (namespace.new ≡ namespace.old) }
{
    let content = content_of(namespace, alloc, fs, source.as_slice())?;
    mount_refusals(namespace, path.as_names(), fs, source.as_slice(), &content)?;
    let mount = make_mount(namespace, path, fs, source)?;
    let contents = brought_by(alloc, namespace.roms.as_slice(), content.as_slice())?;
    let changes = add_mount(namespace, alloc, &mount, content)?;
    Ok(Mounted { changes, contents })
}

fn make_mount(
    namespace: &Namespace,
    point: Path,
    fs: FsType,
    source: &Bytes,
) -> Result<Mount, NoMemory>
    requires { length namespace.now.mounts ≤ 14 }
    ensures { IfOk result (λ mount. mount ≡ record { number = least_free_mount namespace.now; point = point; fs = fs; source = source.now }) }
{
    Ok(Mount {
        number: least_free_mount(namespace),
        point,
        fs,
        source: source.clone()?,
    })
}

/// The mount stands, and each file that it begins with has a row.
#[tactic(auto, using(crate::proofs::Starts::start_is, crate::proofs::Starts::live_files_at_start, crate::proofs::Starts::generations_at_start), unfolding(vfs_model::specs::MountStep::add_mount))]
fn add_mount(
    namespace: &mut Namespace,
    alloc: Global,
    mount: &Mount,
    content: Content,
) -> Result<List<Change>, NoMemory>
    requires sized { IsSized namespace.old }
    requires content { content ≡ content_of namespace.old mount.now.fs mount.now.source }
    requires free { file_count content ≤ free_count namespace.old }
    ensures contents { IfOk result (λ changes. (roms : List ModelRom) → brought_by roms content ≡ contents_of roms (map row_change changes)) }
    ensures ok { IfOk result (λ changes. add_mount namespace.old mount.now ≡ record { next = namespace.new; changes = map row_change changes }) }
    ensures err { OnErr result (namespace.new ≡ namespace.old) }
{
    let mut changes = room_for(alloc, content.len())?;
    let mut tree = begin_mount(namespace, mount, content.len())?;
    add_entries(namespace, mount, content, &mut tree, &mut changes);
    set_tree(namespace, mount.number, List::from_vec(tree));
    Ok(List::from_vec(changes))
}

fn room_for(alloc: Global, count: usize) -> Result<Vec<Change>, NoMemory>
    ensures empty { IfOk result (λ changes. changes.items ≡ []) }
    ensures room { IfOk result (λ changes. vec_len changes + count ≤ vec_capacity changes) }
{
    Ok(Vec::with_capacity(alloc, count)?)
}

// The mount stands among the others. Its tree is taken out, with room for so many nodes more.
#[tactic(auto, using(plain_nodes::proofs::Sets::set_again, plain_nodes::proofs::Sets::set_back, crate::proofs::Starts::begun_so))]
fn begin_mount(
    namespace: &mut Namespace,
    mount: &Mount,
    more: usize,
) -> Result<Vec<(Path, NodeKind)>, NoMemory>
    ensures number { OnOk result (mount.now.number < 16) }
    ensures next { OnOk result (namespace.new ≡ with_tree (with_mount namespace.old mount.now) mount.now.number []) }
    ensures tree { IfOk result (λ tree. tree.items ≡ tree_of namespace.old mount.now.number) }
    ensures room { IfOk result (λ tree. vec_len tree + more ≤ vec_capacity tree) }
    ensures err { OnErr result (namespace.new ≡ namespace.old) }
{
    let copy = copy_mount(mount)?;
    let mut tree = take_tree(namespace, mount.number).into_vec();
    let pushed = push_mount(&mut namespace.mounts, &mut tree, more, copy);
    if pushed.is_err() {
        set_tree(namespace, mount.number, List::from_vec(tree));
        return Err(NoMemory);
    }
    forget_kept(namespace, mount);
    Ok(tree)
}

fn copy_mount(mount: &Mount) -> Result<Mount, NoMemory>
    ensures { IfOk result (λ copy. copy ≡ mount.now) }
{
    Ok(Mount {
        number: mount.number,
        point: mount.point.copy()?,
        fs: mount.fs,
        source: mount.source.clone()?,
    })
}

fn push_mount(
    mounts: &mut List<Mount>,
    tree: &mut Vec<(Path, NodeKind)>,
    more: usize,
    mount: Mount,
) -> Result<(), NoMemory>
    ensures ok { OnOk result (mounts.new ≡ mounts.old ++ mount ∷ []) }
    ensures room { OnOk result (vec_len tree.new + more ≤ vec_capacity tree.new) }
    ensures tree { tree.new.items ≡ tree.old.items }
    ensures err { OnErr result (mounts.new ≡ mounts.old) }
{
    tree.reserve(more)?;
    mounts.push(mount)
}

// A volume that is mounted keeps no names of its own.
fn forget_kept(namespace: &mut Namespace, mount: &Mount)
    ensures { namespace.new ≡ without_kept namespace.old mount.now.fs mount.now.source }
{
    match mount.fs {
        FsType::Cell => {
            let volume = volume_named(namespace, mount.source.as_slice());
            let nothing = namespace.volumes.empty_like();
            set_kept(&mut namespace.volumes, volume, nothing);
        }
        FsType::Tmp | FsType::Rom | FsType::Dev => {}
    }
}
