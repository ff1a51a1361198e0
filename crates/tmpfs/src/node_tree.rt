//! The tree of a file system in memory.

ghost use Rattle.std.specs.Prelude.{◌≡◌, [], ◌==◌, ◌≤◌, ◌<◌, ◌+◌, false, length, take, map, Some, None, IfOk, IfErr, OnOk, OnErr};
ghost use Rattle.std.specs.FinMap.Entries.{find as value_at, put};
ghost use Rattle.vfs_base.specs.Path.{path_cmp};
ghost use Rattle.vfs_base.specs.declared.kinds.NodeKind.TheVariants as node_kind;
ghost use Rattle.vfs_model.specs.Lookup.{is_prefix, node_in};
ghost use Rattle.vfs_model.specs.NormalPath.{parent_of};
ghost use Rattle.vfs_model.specs.RenameStep.{moved};
ghost use Rattle.node_maps.specs.IsFault.{IsFaultOf};
ghost use Rattle.node_maps.specs.NodeMap.{folder_refusal, is_folder, link_refusal, rename_refusal, unlink_refusal, without};
ghost use Rattle.name_tree.specs.Listed.{has_below};
ghost use Rattle.tmpfs.specs.NodeTree.{entries_in, is_dir};

use name_tree::NameTree;
use node_maps::TreeFault;
use std::alloc::Global;
use std::marker::Model;
use vfs_base::{FileId, Kind, List, ListEntry, NODES, Name, NoMemory, NodeKind};

/// The folders and files of a file system in memory, below a root that is always there.
///
/// A call that is refused or wants memory leaves the tree as it was.
#[derive(Drop)]
pub struct NodeTree {
    // The nodes by path; the root is a folder among them.
    names: NameTree<NodeKind>,
}

impl Model for NodeTree {
    ghost use Rattle.std.specs.Prelude.{drop};
    ghost use Rattle.vfs_model.specs.Namespace.{Tree};
    ghost use Rattle.tmpfs.specs.NodeTree.{IsRooted};

    ghost Value = { Tree };

    ghost view = { λ tree. drop 1 tree.names };

    ghost invariant = { λ tree. IsRooted tree.names };
}

impl NodeTree {
    /// The root alone.
    pub fn new(alloc: Global) -> Result<NodeTree, NoMemory>
        ensures { IfOk result (λ tree. tree ≡ []) }
    {
        let names = NameTree::new(alloc, NodeKind::Dir)?;
        Ok(NodeTree { names })
    }

    /// What stands at the path, or `None` where nothing does. The root is a folder.
    pub fn find(&self, path: &[Name]) -> Option<NodeKind>
        ensures { result ≡ node_in self.now path.now }
    {
        self.names.find(path).copied()
    }

    /// How far the path leads: how many of its first names lead to a node, as many as do, and that
    /// node. Where none does, it is the root. The path is walked along once.
    pub fn reach(&self, path: &[Name]) -> (usize, NodeKind)
        ensures within { result.0 ≤ length path.now }
        ensures node { node_in self.now (take result.0 path.now) ≡ Some result.1 }
        ensures ends { result.0 < length path.now → node_in self.now (take (result.0 + 1) path.now) ≡ None }
    {
        let (count, node) = self.names.reach(path);
        (count, *node)
    }

    /// How many nodes there are beside the root.
    pub fn len(&self) -> usize
        ensures { result ≡ length self.now }
    {
        self.names.len() - 1
    }

    /// Whether there is no node beside the root.
    pub fn is_empty(&self) -> bool
        ensures { result ≡ (length self.now == 0) }
    {
        self.len() == 0
    }

    /// Whether a node stands below the path.
    pub fn has_below(&self, path: &[Name]) -> bool
        ensures { result ≡ has_below path.now self.now }
    {
        self.names.has_below(path)
    }

    /// A folder more. It is refused with the first of these that holds: `NotFound` where the parent
    /// is no folder, `Exists` where something stands at the path, which the root always does, and
    /// `Full` where there are `NODES` nodes.
    pub fn insert_dir(&mut self, path: &[Name]) -> Result<(), TreeFault>
        ensures ok { OnOk result (self.new ≡ put path_cmp path.now node_kind.Dir self.old) }
        ensures fits { OnOk result (link_refusal is_dir self.old path.now ≡ None) }
        ensures fault { IfErr result (λ fault. IsFaultOf fault (link_refusal is_dir self.old path.now)) }
        ensures refused { OnErr result (self.new ≡ self.old) }
    {
        self.put(path, NodeKind::Dir)
    }

    /// A file more, refused as a folder is.
    pub fn link(&mut self, path: &[Name], file: FileId, kind: Kind) -> Result<(), TreeFault>
        ensures ok { OnOk result (self.new ≡ put path_cmp path.now (node_kind.File file kind) self.old) }
        ensures fits { OnOk result (link_refusal is_dir self.old path.now ≡ None) }
        ensures fault { IfErr result (λ fault. IsFaultOf fault (link_refusal is_dir self.old path.now)) }
        ensures refused { OnErr result (self.new ≡ self.old) }
    {
        self.put(path, NodeKind::File { file, kind })
    }

    // A node more, at its place.
    fn put(&mut self, path: &[Name], node: NodeKind) -> Result<(), TreeFault>
        ensures ok { OnOk result (self.new ≡ put path_cmp path.now node self.old) }
        ensures fits { OnOk result (link_refusal is_dir self.old path.now ≡ None) }
        ensures fault { IfErr result (λ fault. IsFaultOf fault (link_refusal is_dir self.old path.now)) }
        ensures refused { OnErr result (self.new ≡ self.old) }
    {
        if let Some(fault) = self.link_fault(path) {
            return Err(fault);
        }
        self.names.insert(path, node)?;
        Ok(())
    }

    // Why no node can be put at the path.
    fn link_fault(&self, path: &[Name]) -> Option<TreeFault>
        ensures { result ≡ link_refusal is_dir self.now path.now }
    {
        if !self.is_folder(parent(path)) {
            return Some(TreeFault::NotFound);
        }
        if self.names.find(path).is_some() {
            return Some(TreeFault::Exists);
        }
        if NODES <= self.len() {
            return Some(TreeFault::Full);
        }
        None
    }

    // Whether a folder stands at the path.
    fn is_folder(&self, path: &[Name]) -> bool
        ensures { result ≡ is_folder is_dir self.now path.now }
    {
        matches!(self.names.find(path), Some(NodeKind::Dir))
    }

    /// Takes the node at the path away and answers it; `NotFound` where there is none, as at the
    /// root. No node may stand below it. No memory is wanted.
    pub fn unlink(&mut self, path: &[Name]) -> Result<NodeKind, TreeFault>
        requires { has_below path.now self.old ≡ false }
        ensures node { IfOk result (λ node. value_at path_cmp path.now self.old ≡ Some node) }
        ensures ok { OnOk result (self.new ≡ without path.now self.old) }
        ensures fault { IfErr result (λ fault. unlink_refusal self.old path.now ≡ Some fault) }
        ensures refused { OnErr result (self.new ≡ self.old) }
    {
        let names = &mut self.names;
        if path.is_empty() {
            return Err(TreeFault::NotFound);
        }
        let Some(node) = names.remove(path) else {
            return Err(TreeFault::NotFound);
        };
        Ok(node)
    }

    /// Moves the node at the old path, with all below it, to the new one, and answers the node that
    /// stood there; `NotFound` where nothing stands at the old path, or the parent of the new one is
    /// no folder. It takes no longer where much lies below.
    pub fn rename_in(&mut self, old: &[Name], new: &[Name]) -> Result<Option<NodeKind>, TreeFault>
        requires outside { is_prefix old.now new.now ≡ false }
        requires above { is_prefix new.now old.now ≡ false }
        requires bare { has_below new.now self.old ≡ false }
        ensures replaced { IfOk result (λ replaced. replaced ≡ node_in self.old new.now) }
        ensures ok { OnOk result (self.new ≡ moved old.now new.now self.old) }
        ensures fits { OnOk result (rename_refusal is_dir self.old old.now new.now ≡ None) }
        ensures fault { IfErr result (λ fault. IsFaultOf fault (rename_refusal is_dir self.old old.now new.now)) }
        ensures refused { OnErr result (self.new ≡ self.old) }
    {
        if self.names.find(old).is_none() || !self.is_folder(parent(new)) {
            return Err(TreeFault::NotFound);
        }
        let replaced = self.names.relink(old, new)?;
        Ok(replaced)
    }

    /// What is in the folder at the path, in byte order of the names; `NotFound` where no folder
    /// stands there.
    pub fn list(&self, path: &[Name]) -> Result<List<ListEntry>, TreeFault>
        ensures ok { IfOk result (λ entries. entries ≡ entries_in path.now self.now) }
        ensures fits { OnOk result (folder_refusal is_dir self.now path.now ≡ None) }
        ensures fault { IfErr result (λ fault. IsFaultOf fault (folder_refusal is_dir self.now path.now)) }
    {
        if !self.is_folder(path) {
            return Err(TreeFault::NotFound);
        }
        let entries = list_entries(self.names.list(path)?)?;
        Ok(entries)
    }
}

// The path of the parent; that of the root is the root's.
fn parent(path: &[Name]) -> &[Name]
    ensures { result.now ≡ parent_of path.now }
{
    &path[..path.len().saturating_sub(1)]
}

// The entries of a listing.
fn list_entries(nodes: List<(Name, NodeKind)>) -> Result<List<ListEntry>, NoMemory>
    ensures { IfOk result (λ entries. entries ≡ map (λ entry. record { name = entry.0; node = entry.1 }) nodes) }
{
    let mut entries = nodes.empty_like();
    for (name, node) in nodes.into_vec() {
        entries.push(ListEntry { name, node })?;
    }
    Ok(entries)
}
