//! What stands at a path: the mount that covers it, the node, and what lies above and below.

ghost use Rattle.std.specs.Prelude.{◌≡◌, ◌&&◌, Some, None, nat_lt, length, if◌then◌else◌};
ghost use Rattle.std.specs.List.{list_any};
ghost use Rattle.vfs_model.specs.Lookup.{covering_mount, has_folder_within, has_mount_below, has_nodes, is_dir_node, is_file, is_file_node, is_folder, is_full, is_point, is_prefix, is_read_only, is_read_only_type, is_there, is_working_directory, is_below, node_at, prefix_refusal, rest_of, walk_refusal};
ghost use Rattle.vfs_model.specs.Namespace.{same_path, tree_of};

use crate::trees::{has_below, is_below, is_prefix, node_in, same_path};
use vfs_base::{Errno, FsType, MountId, NODES, Name, NodeKind, Path};
use vfs_model::{Mount, Namespace};

/// The mount with the longest point that is a prefix of the path.
#[tactic(auto, unfolding(vfs_model::specs::Lookup::covering_mount))]
pub fn covering_mount<'a>(namespace: &'a Namespace, path: &[Name]) -> &'a Mount
    ensures { result.now ≡ covering_mount namespace.now path.now }
{
    let mut found = &namespace.root;
    for mount in namespace.mounts.as_slice() {
        found = nearer(found, mount, path);
    }
    found
}

// The mount with the longer point, if that is a prefix of the path; else the one found so far.
fn nearer<'a>(found: &'a Mount, mount: &'a Mount, path: &[Name]) -> &'a Mount
    ensures { result.now ≡ (if is_prefix mount.now.point path.now && nat_lt (length found.now.point) (length mount.now.point) then mount.now else found.now) }
{
    if is_prefix(mount.point.as_names(), path) && found.point.len() < mount.point.len() {
        mount
    } else {
        found
    }
}

/// The tree of the mount with this number.
pub fn tree_of(namespace: &Namespace, number: MountId) -> &[(Path, NodeKind)]
    ensures { result.now ≡ tree_of namespace.now number }
{
    match namespace.trees.as_slice().get(number.number() as usize) {
        Some(tree) => tree.as_slice(),
        None => &[],
    }
}

/// The path from the point of its mount on.
pub fn rest_of<'a>(namespace: &Namespace, path: &'a [Name]) -> &'a [Name]
    ensures { result.now ≡ rest_of namespace.now path.now }
{
    path.get(covering_mount(namespace, path).point.len()..)
        .unwrap_or(&[])
}

/// What stands at the path.
#[tactic(auto, unfolding(vfs_model::specs::Lookup::node_at))]
pub fn node_at(namespace: &Namespace, path: &[Name]) -> Option<NodeKind>
    ensures { result ≡ node_at namespace.now path.now }
{
    let mount = covering_mount(namespace, path);
    node_in(tree_of(namespace, mount.number), rest_of(namespace, path))
}

/// Whether something stands at the path.
pub fn is_there(namespace: &Namespace, path: &[Name]) -> bool
    ensures { result ≡ is_there namespace.now path.now }
{
    node_at(namespace, path).is_some()
}

/// Whether a folder stands at the path.
pub fn is_folder(namespace: &Namespace, path: &[Name]) -> bool
    ensures { result ≡ is_folder namespace.now path.now }
{
    is_dir_node(node_at(namespace, path))
}

fn is_dir_node(node: Option<NodeKind>) -> bool
    ensures { result ≡ is_dir_node node }
{
    match node {
        Some(NodeKind::Dir) => true,
        Some(NodeKind::File { .. }) => false,
        None => false,
    }
}

/// Whether a file stands at the path.
pub fn is_file(namespace: &Namespace, path: &[Name]) -> bool
    ensures { result ≡ is_file namespace.now path.now }
{
    is_file_node(node_at(namespace, path))
}

fn is_file_node(node: Option<NodeKind>) -> bool
    ensures { result ≡ is_file_node node }
{
    match node {
        Some(NodeKind::Dir) => false,
        Some(NodeKind::File { .. }) => true,
        None => false,
    }
}

/// The error of the shortest proper prefix of the path that is absent (ENOENT) or a file (ENOTDIR),
/// as in POSIX.1-2017, "Pathname Resolution".
#[tactic(auto, using(crate::proofs::Walks::walk_on, crate::proofs::Walks::passes, crate::proofs::Walks::ends), unfolding(vfs_model::specs::Lookup::walk_refusal))]
pub fn walk_refusal(namespace: &Namespace, path: &[Name]) -> Option<Errno>
    ensures { result ≡ walk_refusal namespace.now path.now }
{
    for len in 0..path.len() {
        let refusal = prefix_refusal(node_at(namespace, &path[..len]));
        if refusal.is_some() {
            return refusal;
        }
    }
    None
}

// What a walk is refused with that comes to this node on its way.
fn prefix_refusal(node: Option<NodeKind>) -> Option<Errno>
    ensures { result ≡ prefix_refusal node None }
{
    match node {
        None => Some(Errno::ENOENT),
        Some(NodeKind::File { .. }) => Some(Errno::ENOTDIR),
        Some(NodeKind::Dir) => None,
    }
}

/// Whether the folder at the path has nodes.
pub fn has_nodes(namespace: &Namespace, path: &[Name]) -> bool
    ensures { result ≡ has_nodes namespace.now path.now }
{
    let mount = covering_mount(namespace, path);
    has_below(tree_of(namespace, mount.number), rest_of(namespace, path))
}

/// Whether a mount has this point.
pub fn is_point(namespace: &Namespace, path: &[Name]) -> bool
    ensures { result ≡ is_point namespace.now path.now }
{
    same_path(namespace.root.point.as_names(), path)
        || is_point_of(namespace.mounts.as_slice(), path)
}

fn is_point_of(mounts: &[Mount], path: &[Name]) -> bool
    ensures { result ≡ list_any (λ mount. same_path mount.point path.now) mounts.now }
{
    mounts
        .iter()
        .any(|mount| same_path(mount.point.as_names(), path))
}

/// Whether a mount's point lies below the path.
#[tactic(auto, unfolding(vfs_model::specs::Lookup::has_mount_below))]
pub fn has_mount_below(namespace: &Namespace, path: &[Name]) -> bool
    ensures { result ≡ has_mount_below namespace.now path.now }
{
    is_below(path, namespace.root.point.as_names())
        || has_point_below(namespace.mounts.as_slice(), path)
}

fn has_point_below(mounts: &[Mount], path: &[Name]) -> bool
    ensures { result ≡ list_any (λ mount. is_below path.now mount.point) mounts.now }
{
    mounts
        .iter()
        .any(|mount| is_below(path, mount.point.as_names()))
}

/// Whether a session's working directory is the path.
pub fn is_working_directory(namespace: &Namespace, path: &[Name]) -> bool
    ensures { result ≡ is_working_directory namespace.now path.now }
{
    let working_directories = namespace.working_directories.as_slice();
    working_directories
        .iter()
        .any(|folder| same_path(path, folder.as_names()))
}

/// Whether a session's working directory is the path or lies below it.
pub fn has_folder_within(namespace: &Namespace, path: &[Name]) -> bool
    ensures { result ≡ has_folder_within namespace.now path.now }
{
    let working_directories = namespace.working_directories.as_slice();
    working_directories
        .iter()
        .any(|folder| is_prefix(path, folder.as_names()))
}

/// Whether a file system of this type is read-only.
pub fn is_read_only_type(fs: FsType) -> bool
    ensures { result ≡ is_read_only_type fs }
{
    match fs {
        FsType::Tmp | FsType::Cell => false,
        FsType::Rom | FsType::Dev => true,
    }
}

/// Whether the mount of the path is read-only.
pub fn is_read_only(namespace: &Namespace, path: &[Name]) -> bool
    ensures { result ≡ is_read_only namespace.now path.now }
{
    is_read_only_type(covering_mount(namespace, path).fs)
}

/// Whether the mount of the path has as many nodes beside its root as it may.
pub fn is_full(namespace: &Namespace, path: &[Name]) -> bool
    ensures { result ≡ is_full namespace.now path.now }
{
    let number = covering_mount(namespace, path).number;
    NODES <= tree_of(namespace, number).len()
}
