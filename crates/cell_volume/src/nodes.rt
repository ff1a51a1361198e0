//! The record of a volume: what stands at each path, in the order of paths.

ghost use Rattle.std.specs.Prelude.{◌≡◌, T, Some, IfNone, IfOk, OnErr, OnOk};
ghost use Rattle.std.specs.FinMap.Entries.{find as value_at, is_sorted, put};
ghost use Rattle.std.specs.Result.{result_err};
ghost use Rattle.vfs_base.specs.Path.{IsPath, path_cmp};
ghost use Rattle.node_maps.specs.IsFault.{AnswersBy};
ghost use Rattle.node_maps.specs.NodeMap.{is_folder, link_refusal, unlink_refusal, without};
ghost use Rattle.cell_volume.specs.MountedVolume.{is_dir, with_content, with_kept};

use node_maps::TreeFault;
use vfs_base::{CellNode, NODES, Path, Record};

/// What stands at the path, the root apart.
pub(crate) fn node_at(nodes: &Record, path: &Path) -> Option<CellNode>
    ensures { result ≡ value_at path_cmp path.now nodes.now.entries }
{
    nodes.get(path).copied()
}

/// Whether a folder stands at the path; the root is one.
pub(crate) fn is_folder(nodes: &Record, path: &Path) -> bool
    ensures { result ≡ is_folder is_dir nodes.now.entries path.now }
{
    path.is_root() || matches!(node_at(nodes, path), Some(CellNode::Dir))
}

/// Puts the node at the path.
#[tactic(auto, using(vfs_base::proofs::PathMaps::putting))]
pub(crate) fn link(nodes: &mut Record, path: &Path, node: CellNode) -> Result<(), TreeFault>
    ensures ok { OnOk result (nodes.new.entries ≡ put path_cmp path.now node nodes.old.entries) }
    ensures fault { AnswersBy (link_refusal is_dir nodes.old.entries path.now) result }
    ensures err { OnErr result (nodes.new.entries ≡ nodes.old.entries) }
    ensures path { IsPath path.now }
{
    // What the path promises of its names is known only from a call of its own.
    let _names = path.as_names();
    let key = match may_link(nodes, path) {
        Ok(key) => key,
        Err(fault) => return Err(fault),
    };
    match nodes.insert(key, node) {
        Ok(_) => Ok(()),
        Err(_) => Err(TreeFault::NoMemory),
    }
}

// The path in memory of its own, where a node may be put there.
fn may_link(nodes: &Record, path: &Path) -> Result<Path, TreeFault>
    ensures ok { IfOk result (λ key. key ≡ path.now) }
    ensures fault { AnswersBy (link_refusal is_dir nodes.now.entries path.now) result }
{
    let mut key = path.copy()?;
    let Some(name) = key.pop() else {
        return Err(TreeFault::Exists);
    };
    if !is_folder(nodes, &key) {
        return Err(TreeFault::NotFound);
    }
    if node_at(nodes, path).is_some() {
        return Err(TreeFault::Exists);
    }
    if NODES <= nodes.len() {
        return Err(TreeFault::Full);
    }
    key.push(name)?;
    Ok(key)
}

/// Takes the node at the path away.
pub(crate) fn unlink(nodes: &mut Record, path: &Path) -> Result<CellNode, TreeFault>
    requires { T (is_sorted path_cmp nodes.old.entries) }
    ensures ok { IfOk result (λ node. value_at path_cmp path.now nodes.old.entries ≡ Some node) }
    ensures fault { result_err result ≡ unlink_refusal nodes.old.entries path.now }
    ensures left { OnOk result (nodes.new.entries ≡ without path.now nodes.old.entries) }
    ensures err { OnErr result (nodes.new.entries ≡ nodes.old.entries) }
{
    match remove_node(nodes, path) {
        Some(node) => Ok(node),
        None => Err(TreeFault::NotFound),
    }
}

/// Takes the node at the path away, where one stands there.
pub(crate) fn remove_node(nodes: &mut Record, path: &Path) -> Option<CellNode>
    requires { T (is_sorted path_cmp nodes.old.entries) }
    ensures node { result ≡ value_at path_cmp path.now nodes.old.entries }
    ensures left { nodes.new.entries ≡ without path.now nodes.old.entries }
    ensures none { IfNone result (nodes.new.entries ≡ nodes.old.entries) }
    ensures ordered { T (is_sorted path_cmp nodes.new.entries) }
{
    nodes.remove(path)
}

/// Gives the file at the path this size and these stored pages.
pub(crate) fn keep(nodes: &mut Record, path: &Path, size: u64, stored: [u64; 16])
    ensures { nodes.new.entries ≡ with_kept nodes.old.entries path.now size stored }
{
    if let Some(node) = nodes.get_mut(path) {
        *node = with_content(*node, size, stored);
    }
}

fn with_content(node: CellNode, size: u64, stored: [u64; 16]) -> CellNode
    ensures { result ≡ with_content node size stored }
{
    match node {
        CellNode::Dir => CellNode::Dir,
        CellNode::File { cell, .. } => CellNode::File { cell, size, stored },
    }
}
