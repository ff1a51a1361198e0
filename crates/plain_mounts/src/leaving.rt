//! Mounts that leave: their names, rows and nodes go, and no memory is wanted.

ghost use Rattle.std.specs.Prelude.{◌≡◌, ◌==◌, [], ◌+◌, ◌-◌, ◌<◌, ◌≤◌, not, length, map, filter, fold, drop, slice_index_or, slice_set, vec_len, vec_capacity, IfOk, if◌then◌else◌};
ghost use Rattle.vfs_model.specs.FileLife.{backing_of, end_of_unmounted, free_row, no_volume, volume_named};
ghost use Rattle.vfs_model.specs.Lookup.{with_tree};
ghost use Rattle.vfs_model.specs.Namespace.{life_at, tree_of};
ghost use Rattle.vfs_model.specs.UmountSteps.{cell_of, empty_mount, is_of_mount, keep_names, kept_node, remove_mount, rows_of_mount};
ghost use Rattle.plain_mounts.specs.Leaving.{live_count, rows_so_far, TreesShrink};
ghost use Rattle.plain_mounts.specs.Unmounting.{HasRoom};

use plain_nodes::changes::Change;
use plain_nodes::lookup::tree_of;
use plain_nodes::nodes::take_tree;
use plain_nodes::rows::free_row;
use plain_nodes::sources::volume_named;
use std::alloc::Global;
use vfs_base::{FsType, List, MountId, NoMemory, NodeKind, Path, ROWS, RowId};
use vfs_model::{Backing, End, KeptNode, LiveFile, Mount, Namespace, Tree, VolumeState};

/// A mount that leaves, and room for the names that its volume keeps.
#[derive(Drop)]
pub struct Leaving {
    pub mount: Mount,
    pub room: Vec<(Path, KeptNode)>,
}

/// The mount in memory of its own, with room for the names of its tree.
pub fn make_leaving(
    namespace: &Namespace,
    alloc: Global,
    mount: &Mount,
) -> Result<Leaving, NoMemory>
    ensures mount { IfOk result (λ leaving. leaving.mount ≡ mount.now) }
    ensures room { IfOk result (HasRoom namespace.now) }
{
    let count = tree_of(namespace, mount.number).len();
    let room = Vec::with_capacity(alloc, count)?;
    let mount = Mount {
        number: mount.number,
        point: mount.point.copy()?,
        fs: mount.fs,
        source: mount.source.clone()?,
    };
    Ok(Leaving { mount, room })
}

/// The mount goes. The changes that are told have room for those of its rows.
#[tactic(auto, unfolding(vfs_model::specs::UmountSteps::remove_mount))]
pub fn remove_mount(
    namespace: &mut Namespace,
    mount: &Mount,
    room: Vec<(Path, KeptNode)>,
    changes: &mut Vec<Change>,
)
    requires live_files { length namespace.old.live_files ≡ 1024 }
    requires empty { room.items ≡ [] }
    requires names { length (tree_of namespace.old mount.now.number) ≤ vec_capacity room }
    requires room { vec_len changes.old + live_count namespace.old ≤ vec_capacity changes.old }
    ensures next { remove_mount (rows_so_far namespace.old changes.old.items) mount.now
        ≡ rows_so_far namespace.new changes.new.items }
    ensures live_files { length namespace.new.live_files ≡ 1024 }
    ensures trees { TreesShrink namespace.old namespace.new }
    ensures room { vec_len changes.new + live_count namespace.new ≤ vec_capacity changes.new }
{
    empty_mount(namespace, mount, room, changes);
    drop_mount(&mut namespace.mounts, mount.number);
}

fn drop_mount(mounts: &mut List<Mount>, number: MountId)
    ensures { mounts.new ≡ filter (λ other. not (other.number == number)) mounts.old }
{
    retain_others(mounts, number.number());
}

fn retain_others(mounts: &mut List<Mount>, number: u8)
    ensures { mounts.new ≡ filter (λ other. not (other.number == number)) mounts.old }
{
    mounts.retain(|other| !has_number(other, number));
}

fn has_number(mount: &Mount, number: u8) -> bool
    ensures { result ≡ (mount.now.number == number) }
{
    mount.number.number() == number
}

/// The mount has no nodes any more, and its files are freed by row; a volume keeps its names and
/// cells. The changes that are told have room for those of its rows.
#[tactic(auto, unfolding(vfs_model::specs::UmountSteps::empty_mount))]
pub fn empty_mount(
    namespace: &mut Namespace,
    mount: &Mount,
    room: Vec<(Path, KeptNode)>,
    changes: &mut Vec<Change>,
)
    requires live_files { length namespace.old.live_files ≡ 1024 }
    requires empty { room.items ≡ [] }
    requires names { length (tree_of namespace.old mount.now.number) ≤ vec_capacity room }
    requires room { vec_len changes.old + live_count namespace.old ≤ vec_capacity changes.old }
    ensures next { empty_mount (rows_so_far namespace.old changes.old.items) mount.now
        ≡ rows_so_far namespace.new changes.new.items }
    ensures live_files { length namespace.new.live_files ≡ 1024 }
    ensures trees { TreesShrink namespace.old namespace.new }
    ensures room { vec_len changes.new + live_count namespace.new ≤ vec_capacity changes.new }
{
    clear_tree(namespace, mount, room);
    free_rows_of(namespace, mount.number, changes);
}

// The mount has no nodes any more; a volume keeps their names.
fn clear_tree(namespace: &mut Namespace, mount: &Mount, room: Vec<(Path, KeptNode)>)
    requires empty { room.items ≡ [] }
    requires names { length (tree_of namespace.old mount.now.number) ≤ vec_capacity room }
    ensures next { namespace.new ≡ with_tree (keep_names namespace.old mount.now mount.now.fs) mount.now.number [] }
    ensures trees { TreesShrink namespace.old namespace.new }
{
    let tree = take_tree(namespace, mount.number);
    match mount.fs {
        FsType::Cell => {
            let kept = kept_names(namespace, tree, room);
            let volume = volume_named(namespace, mount.source.as_slice());
            set_kept(&mut namespace.volumes, volume, kept);
        }
        FsType::Tmp | FsType::Rom | FsType::Dev => {}
    }
}

// Frees the files of the mount, by row.
fn free_rows_of(namespace: &mut Namespace, number: MountId, changes: &mut Vec<Change>)
    requires live_files { length namespace.old.live_files ≡ 1024 }
    requires room { vec_len changes.old + live_count namespace.old ≤ vec_capacity changes.old }
    ensures next { fold (free_row end_of_unmounted) (rows_so_far namespace.old changes.old.items) (rows_of_mount namespace.old number)
        ≡ rows_so_far namespace.new changes.new.items }
    ensures live_files { length namespace.new.live_files ≡ 1024 }
    ensures trees { namespace.new.trees ≡ namespace.old.trees }
    ensures room { vec_len changes.new + live_count namespace.new ≤ vec_capacity changes.new }
{
    for place in 0..ROWS {
        free_if_of(namespace, number, place, changes);
    }
}

// Frees the row at this place, counted from 0, if its file is the mount's.
#[tactic(auto, unfolding(vfs_model::specs::FileLife::free_row))]
fn free_if_of(namespace: &mut Namespace, number: MountId, place: u16, changes: &mut Vec<Change>)
    requires place { place < 1024 }
    requires live_files { length namespace.old.live_files ≡ 1024 }
    requires room { vec_len changes.old + live_count namespace.old ≤ vec_capacity changes.old }
    ensures next { rows_so_far namespace.new changes.new.items
        ≡ (if is_of_mount number (life_at namespace.old (place + 1)) then free_row end_of_unmounted (rows_so_far namespace.old changes.old.items) (place + 1) else rows_so_far namespace.old changes.old.items) }
    ensures later { drop (place + 1) namespace.new.live_files ≡ drop (place + 1) namespace.old.live_files }
    ensures live_files { length namespace.new.live_files ≡ 1024 }
    ensures trees { namespace.new.trees ≡ namespace.old.trees }
    ensures room { vec_len changes.new + live_count namespace.new ≤ vec_capacity changes.new }
{
    let Some(row) = RowId::new(place + 1) else {
        return;
    };
    if !has_file_of(namespace, number, row) {
        return;
    }
    let end = end_of_unmounted(namespace, row);
    changes.push_reserved(free_row(namespace, row, end));
}

fn has_file_of(namespace: &Namespace, number: MountId, row: RowId) -> bool
    ensures { result ≡ is_of_mount number (life_at namespace.now row) }
{
    match namespace.live_files.as_slice().get(row.place()) {
        Some(life) => is_of_mount(number, life),
        None => false,
    }
}

// Whether the row's file belongs to the mount.
fn is_of_mount(number: MountId, life: &Option<LiveFile>) -> bool
    ensures { result ≡ is_of_mount number life.now }
{
    match life {
        None => false,
        Some(life) => life.mount.number() == number.number(),
    }
}

// What a volume keeps of a node of its mount: a folder, or the file's cell.
fn kept_node(namespace: &Namespace, node: NodeKind) -> KeptNode
    ensures { result ≡ kept_node namespace.now node }
{
    match node {
        NodeKind::Dir => KeptNode::Dir,
        NodeKind::File { file, .. } => cell_of_row(namespace, file.row),
    }
}

fn cell_of_row(namespace: &Namespace, row: RowId) -> KeptNode
    ensures { result ≡ cell_of (backing_of (life_at namespace.now row)) }
{
    match namespace.live_files.as_slice().get(row.place()) {
        Some(Some(life)) => cell_of(&life.backing),
        Some(None) => KeptNode::Dir,
        None => KeptNode::Dir,
    }
}

fn cell_of(backing: &Backing) -> KeptNode
    ensures { result ≡ cell_of backing.now }
{
    match backing {
        Backing::Cell { cell, .. } => KeptNode::File { cell: *cell },
        Backing::Memory => KeptNode::Dir,
        Backing::Device { .. } => KeptNode::Dir,
    }
}

// What becomes of the row's file when its mount goes.
fn end_of_unmounted(namespace: &Namespace, row: RowId) -> End
    ensures { result ≡ end_of_unmounted (backing_of (life_at namespace.now row)) }
{
    match namespace.live_files.as_slice().get(row.place()) {
        Some(Some(life)) => end_of_backing(&life.backing),
        Some(None) => End::Nothing,
        None => End::Nothing,
    }
}

fn end_of_backing(backing: &Backing) -> End
    ensures { result ≡ end_of_unmounted backing.now }
{
    match backing {
        Backing::Memory => End::Nothing,
        Backing::Cell { volume, cell } => End::Kept {
            volume: *volume,
            cell: *cell,
        },
        Backing::Device { device } => End::Device { device: *device },
    }
}

// The names that a volume keeps of a tree. The list that is handed in has room for them.
fn kept_names(
    namespace: &Namespace,
    tree: Tree,
    mut kept: Vec<(Path, KeptNode)>,
) -> List<(Path, KeptNode)>
    requires empty { kept.items ≡ [] }
    requires room { vec_len kept + length tree ≤ vec_capacity kept }
    ensures { result ≡ map (λ entry. (entry.0, kept_node namespace.now entry.1)) tree }
{
    for (path, node) in tree.into_vec() {
        kept.push_reserved((path, kept_node(namespace, node)));
    }
    List::from_vec(kept)
}

// Gives the volume at this place other names to keep.
pub fn set_kept(volumes: &mut List<VolumeState>, volume: usize, kept: List<(Path, KeptNode)>)
    ensures { volumes.new ≡ slice_set volumes.old volume
        (record (slice_index_or volumes.old volume no_volume) { kept = kept }) }
{
    let volumes = volumes.as_mut_slice();
    if volume < volumes.len() {
        volumes[volume].kept = kept;
    }
}
