//! Nodes of the namespace that are put, taken away and moved.

ghost use Rattle.std.specs.Prelude.{◌≡◌, ◌<◌, [], filter, not, OnOk, OnErr};
ghost use Rattle.std.specs.FinMap.Entries.{put};
ghost use Rattle.vfs_base.specs.Path.{path_cmp};
ghost use Rattle.vfs_model.specs.Lookup.{covering_mount, with_node, with_tree};
ghost use Rattle.vfs_model.specs.NameSteps.{without_node};
ghost use Rattle.vfs_model.specs.Namespace.{same_path, tree_of};

use crate::lookup::{covering_mount, rest_of};
use crate::paths::path_of;
use crate::trees::{put_entry, remove_entry};
use std::alloc::Global;
use vfs_base::{MountId, Name, NoMemory, NodeKind, Path};
use vfs_model::{Namespace, Tree};

/// Takes the tree of the mount with this number out of the namespace, which has no nodes there then.
pub fn take_tree(namespace: &mut Namespace, number: MountId) -> Tree
    ensures number { number < 16 }
    ensures tree { result ≡ tree_of namespace.old number }
    ensures next { namespace.new ≡ with_tree namespace.old number [] }
{
    let place = number.number() as usize;
    let nothing = namespace.trees.empty_like();
    namespace.trees.replace(place, nothing)
}

/// Gives the mount with this number another tree.
pub fn set_tree(namespace: &mut Namespace, number: MountId, tree: Tree)
    ensures { namespace.new ≡ with_tree namespace.old number tree }
{
    let place = number.number() as usize;
    namespace.trees.set(place, tree);
}

/// Puts a node into the tree of the mount with this number.
#[tactic(auto, using(crate::proofs::Sets::set_again, crate::proofs::Sets::set_back))]
pub fn put_in_tree(
    namespace: &mut Namespace,
    number: MountId,
    path: Path,
    node: NodeKind,
) -> Result<(), NoMemory>
    ensures ok { OnOk result (namespace.new ≡ with_tree namespace.old number (put path_cmp path node (tree_of namespace.old number))) }
    ensures number { number < 16 }
    ensures err { OnErr result (namespace.new ≡ namespace.old) }
{
    let mut tree = take_tree(namespace, number);
    let put = put_entry(&mut tree, path, node);
    set_tree(namespace, number, tree);
    put
}

/// Puts a node at the path.
#[tactic(auto, unfolding(vfs_model::specs::Lookup::with_node))]
pub fn put_node(
    namespace: &mut Namespace,
    alloc: Global,
    path: &[Name],
    node: NodeKind,
) -> Result<(), NoMemory>
    ensures ok { OnOk result (namespace.new ≡ with_node namespace.old path.now node) }
    ensures number { OnOk result ((covering_mount namespace.old path.now).number < 16) }
    ensures err { OnErr result (namespace.new ≡ namespace.old) }
{
    let number = covering_mount(namespace, path).number;
    let rest = path_of(alloc, rest_of(namespace, path))?;
    put_in_tree(namespace, number, rest, node)
}

// Takes the node at the path out of the tree of the mount with this number.
#[tactic(auto, using(crate::proofs::Sets::set_again))]
fn remove_in_tree(namespace: &mut Namespace, number: MountId, path: &[Name])
    ensures next { namespace.new ≡ with_tree namespace.old number
        (filter (λ entry. not (same_path entry.0 path.now)) (tree_of namespace.old number)) }
{
    let mut tree = take_tree(namespace, number);
    remove_entry(&mut tree, path);
    set_tree(namespace, number, tree);
}

/// Takes the node at the path away.
#[tactic(auto, unfolding(vfs_model::specs::NameSteps::without_node))]
pub fn remove_node(namespace: &mut Namespace, path: &[Name])
    ensures next { namespace.new ≡ without_node namespace.old path.now }
{
    let number = covering_mount(namespace, path).number;
    let rest = rest_of(namespace, path);
    remove_in_tree(namespace, number, rest);
}
