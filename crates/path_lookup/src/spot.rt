//! A place in the namespace, as one walk finds it.

ghost use Rattle.std.specs.Prelude.{◌≡◌, ◌≤◌, [], drop, length, slice_index_or};
ghost use Rattle.vfs_base.specs.declared.limits.TheConstants.{MOUNTS};
ghost use Rattle.vfs_model.specs.Lookup.{covering_mount, node_at, walk_refusal};
ghost use Rattle.path_lookup.specs.Standing.{IsStanding, space_of};
ghost use Rattle.path_lookup.specs.Reach.{Reaches, node_reached, refusal_reached};

use mount_tree::MountTree;
use tmpfs::NodeTree;
use vfs_base::{Errno, FsType, List, MountId, Name, NodeKind};

/// What a walk along a path finds.
#[derive(Clone, Copy, Debug)]
pub struct Spot {
    /// The mount that covers the path.
    pub mount: MountId,
    /// The type of its file system.
    pub fs: FsType,
    /// How many of the path's names lead to the mount's point.
    pub depth: usize,
    /// Why the walk is refused: `ENOENT` where a proper prefix of the path is absent, `ENOTDIR` where one
    /// is a file, whichever comes first (POSIX.1-2017, "Pathname Resolution").
    pub walk: Option<Errno>,
    /// What stands at the path.
    pub node: Option<NodeKind>,
}

/// What a walk along the path finds. The tree of the mount is walked once.
#[tactic(auto, unfolding(vfs_model::specs::Lookup::covering_mount))]
pub fn spot_at(mounts: &MountTree, trees: &List<NodeTree>, path: &[Name]) -> Spot
    requires { IsStanding (space_of mounts.now trees.now) }
    ensures mount { result.mount ≡ (covering_mount (space_of mounts.now trees.now) path.now).number }
    ensures fs { result.fs ≡ (covering_mount (space_of mounts.now trees.now) path.now).fs }
    ensures depth { result.depth ≡ length (covering_mount (space_of mounts.now trees.now) path.now).point }
    ensures walk { result.walk ≡ walk_refusal (space_of mounts.now trees.now) path.now }
    ensures node { result.node ≡ node_at (space_of mounts.now trees.now) path.now }
    ensures within { result.depth ≤ length path.now }
{
    let mount = mounts.under(path);
    let depth = mount.point.len();
    let rest = rest_from(path, depth);
    let (count, found) = reach(trees, mount.number, rest);
    let left = rest.len() - count;
    Spot {
        mount: mount.number,
        fs: mount.fs,
        depth,
        walk: refusal_reached(left, &found),
        node: node_reached(left, found),
    }
}

// The path from so many names on.
fn rest_from(path: &[Name], depth: usize) -> &[Name]
    ensures { result.now ≡ drop depth path.now }
{
    path.get(depth..).unwrap_or(&[])
}

// How far the path leads in the tree of the mount with this number.
fn reach(trees: &List<NodeTree>, mount: MountId, rest: &[Name]) -> (usize, NodeKind)
    requires { length trees.now ≡ MOUNTS }
    ensures { Reaches (slice_index_or trees.now mount []) rest.now result.0 result.1 }
{
    let place = usize::from(mount.number());
    trees.as_slice()[place].reach(rest)
}

// Why a walk is refused that has come to this node with so many names left.
fn refusal_reached(left: usize, found: &NodeKind) -> Option<Errno>
    ensures { result ≡ refusal_reached left found.now }
{
    if left == 0 {
        return None;
    }
    match found {
        NodeKind::File { .. } => Some(Errno::ENOTDIR),
        NodeKind::Dir if left == 1 => None,
        NodeKind::Dir => Some(Errno::ENOENT),
    }
}

// What stands at a path whose walk has come to this node with so many names left.
fn node_reached(left: usize, found: NodeKind) -> Option<NodeKind>
    ensures { result ≡ node_reached left found }
{
    if left == 0 { Some(found) } else { None }
}
