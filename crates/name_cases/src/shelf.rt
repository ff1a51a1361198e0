//! A tree at work, by texts of paths.

ghost use Rattle.std.specs.Prelude.{◌≡◌};
ghost use Rattle.vfs_model.specs.Lookup.{is_prefix};

use crate::paths::path_at;
use node_maps::TreeFault;
use std::alloc::Global;
use tmpfs::NodeTree;
use vfs_base::{Name, NoMemory, NodeKind};

/// A folder more at the path that the text names.
pub fn make(alloc: Global, tree: &mut NodeTree, text: &str) -> Result<(), TreeFault> {
    let path = path_at(alloc, text)?;
    tree.insert_dir(path.as_names())
}

/// The same by texts.
pub fn move_node(
    alloc: Global,
    tree: &mut NodeTree,
    old: &str,
    new: &str,
) -> Result<bool, TreeFault> {
    let old = path_at(alloc, old)?;
    let new = path_at(alloc, new)?;
    move_apart(tree, old.as_names(), new.as_names())
}

/// Moves a node, unless one path leads over the other or something stands below the new one.
pub fn move_apart(tree: &mut NodeTree, old: &[Name], new: &[Name]) -> Result<bool, TreeFault> {
    if is_prefix(old, new) || is_prefix(new, old) || tree.has_below(new) {
        return Ok(false);
    }
    let _replaced = tree.rename_in(old, new)?;
    Ok(true)
}

/// One folder more at the top of a chain of folders `d`: all others move below it.
pub fn put_on_top(alloc: Global, tree: &mut NodeTree) -> Result<(), TreeFault> {
    let first = path_at(alloc, "/d")?;
    let top = path_at(alloc, "/top")?;
    let inner = path_at(alloc, "/top/d")?;
    tree.insert_dir(top.as_names())?;
    if tree.find(first.as_names()).is_some() {
        let _moved = move_apart(tree, first.as_names(), inner.as_names())?;
    }
    let _moved = move_apart(tree, top.as_names(), first.as_names())?;
    Ok(())
}

/// Whether a node stands at the path.
pub fn is_there(alloc: Global, tree: &NodeTree, text: &str) -> Result<bool, NoMemory> {
    let path = path_at(alloc, text)?;
    Ok(matches!(tree.find(path.as_names()), Some(NodeKind::Dir)))
}

// Whether the second path begins with the first.
fn is_prefix(front: &[Name], path: &[Name]) -> bool
    ensures { result ≡ is_prefix front.now path.now }
{
    path.starts_with(front)
}
