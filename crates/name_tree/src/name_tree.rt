//! The tree of names.

ghost use Rattle.std.specs.Prelude.{◌≡◌, ◌≢◌, ◌≤◌, ◌<◌, ◌+◌, true, false, length, take, [], ◌∷◌, Some, None, IsSome, IfNone, IfOk, OnOk, OnErr};
ghost use Rattle.std.specs.FinMap.Entries.{find as value_at, is_sorted, put};
ghost use Rattle.std.specs.Option.{option_copied};
ghost use Rattle.vfs_base.specs.Path.{path_cmp};
ghost use Rattle.vfs_model.specs.Lookup.{is_prefix};
ghost use Rattle.vfs_model.specs.NormalPath.{parent_of};
ghost use Rattle.node_maps.specs.NodeMap.{moved, without};
ghost use Rattle.name_tree.specs.Entered.{EntersFront, entered};
ghost use Rattle.name_tree.specs.Listed.{has_below, has_beside, listed};

use crate::links::{
    enter_along, insert_below, relink_below, remove_below, replace_below, set_value,
};
use crate::listing::{gather, listed};
use crate::node::{
    Node, ROOT, child_of, has_entries, has_other, known_slot, named_values, reached_slot, slot_of,
    split_name,
};
use slab::Slab;
use std::alloc::Global;
use std::collections::BTreeMap;
use std::marker::Model;
use vfs_base::{List, Name, NoMemory, Path};

/// Values at paths, one of them at the root.
///
/// A call that wants memory and gets none leaves the tree as it was, but for `enter`.
#[derive(Drop)]
pub struct NameTree<T> {
    alloc: Global,
    // The root's slot is `ROOT`.
    nodes: Slab<Node<T>>,
}

impl<T> Model for NameTree<T> {
    ghost use Rattle.std.specs.Coded.{coded_list, coded×, coded_ℕ};
    ghost use Rattle.node_maps.specs.NodeMap.{NodeMap};
    ghost use Rattle.slab.specs.Slab.{slab_len};
    ghost use Rattle.name_tree.specs.Layout.{tree_of, IsSound};

    ghost Value = { NodeMap T };

    ghost coded = { coded_list (coded× (coded_list (coded_list coded_ℕ)) T.code) };

    ghost view = { λ tree. tree_of tree.nodes.slots };

    ghost invariant = { λ tree. IsSound tree.nodes.slots (slab_len tree.nodes) };
}

impl<T: Drop> NameTree<T> {
    /// A root with this value, and nothing below it.
    pub fn new(alloc: Global, root: T) -> Result<NameTree<T>, NoMemory>
        ensures { IfOk result (λ tree. tree ≡ ([], root) ∷ []) }
    {
        let mut nodes = Slab::new(alloc);
        nodes.insert(Node {
            value: root,
            entries: BTreeMap::new(alloc),
        })?;
        Ok(NameTree { alloc, nodes })
    }

    /// Gives the node at the path another value.
    pub fn set(&mut self, path: &[Name], value: T)
        requires { IsSome (value_at path_cmp path.now self.old) }
        ensures { self.new ≡ put path_cmp path.now value self.old }
    {
        let slot = known_slot(&self.nodes, path);
        set_value(&mut self.nodes, slot, value);
    }

    /// A node more, below one that is there.
    pub fn insert(&mut self, path: &[Name], value: T) -> Result<(), NoMemory>
        requires parent { IsSome (value_at path_cmp (parent_of path.now) self.old) }
        requires absent { value_at path_cmp path.now self.old ≡ None }
        ensures ok { OnOk result (self.new ≡ put path_cmp path.now value self.old) }
        ensures err { OnErr result (self.new ≡ self.old) }
    {
        let (front, name) = split_name(path);
        let parent = known_slot(&self.nodes, front);
        insert_below(&mut self.nodes, self.alloc, parent, name, value)
    }

    /// Takes the node at the path away, below which no other stands, and answers its value, or
    /// `None` where no node stands there.
    pub fn remove(&mut self, path: &[Name]) -> Option<T>
        requires inner { path.now ≢ [] }
        requires bare { has_below path.now self.old ≡ false }
        ensures value { result ≡ value_at path_cmp path.now self.old }
        ensures tree { self.new ≡ without path.now self.old }
    {
        let (front, name) = split_name(path);
        let parent = slot_of(&self.nodes, front)?;
        let slot = child_of(&self.nodes, parent, name)?;
        Some(remove_below(&mut self.nodes, parent, name, slot))
    }

    /// Moves the node at the old path, with all below it, to the new one, and answers the value of
    /// the node that stood there. It takes no longer where much lies below.
    pub fn relink(&mut self, old: &[Name], new: &[Name]) -> Result<Option<T>, NoMemory>
        requires there { IsSome (value_at path_cmp old.now self.old) }
        requires parent { IsSome (value_at path_cmp (parent_of new.now) self.old) }
        requires outside { is_prefix old.now new.now ≡ false }
        requires above { is_prefix new.now old.now ≡ false }
        requires bare { has_below new.now self.old ≡ false }
        ensures value { IfOk result (λ value. value ≡ value_at path_cmp new.now self.old) }
        ensures ok { OnOk result (self.new ≡ moved old.now new.now self.old) }
        ensures err { OnErr result (self.new ≡ self.old) }
    {
        let (front, name) = split_name(old);
        let (target, other) = split_name(new);
        let at = known_slot(&self.nodes, front);
        let to = known_slot(&self.nodes, target);
        let slot = known_slot(&self.nodes, old);
        relink_below(&mut self.nodes, at, name, to, other, slot)
    }

    /// Moves the node at the old path, with all below it, onto the one that stands at the new path,
    /// and answers the value of that one. No memory is wanted, and it takes no longer where much
    /// lies below.
    pub fn replace(&mut self, old: &[Name], new: &[Name]) -> T
        requires there { IsSome (value_at path_cmp old.now self.old) }
        requires target { IsSome (value_at path_cmp new.now self.old) }
        requires outside { is_prefix old.now new.now ≡ false }
        requires above { is_prefix new.now old.now ≡ false }
        requires bare { has_below new.now self.old ≡ false }
        ensures value { value_at path_cmp new.now self.old ≡ Some result }
        ensures tree { self.new ≡ moved old.now new.now self.old }
        ensures ordered { is_sorted path_cmp self.old ≡ true }
    {
        let (front, name) = split_name(old);
        let (target, other) = split_name(new);
        let at = known_slot(&self.nodes, front);
        let to = known_slot(&self.nodes, target);
        let slot = known_slot(&self.nodes, old);
        let gone = known_slot(&self.nodes, new);
        replace_below(&mut self.nodes, at, name, to, other, slot, gone)
    }
}

impl<T: Copy + Drop> NameTree<T> {
    /// A node stands at the path, and at each one above it; those that come have this value. Without
    /// memory for all of them, some of the first ones may have come.
    pub fn enter(&mut self, path: &[Name], value: T) -> Result<(), NoMemory>
        ensures ok { OnOk result (self.new ≡ entered (length path.now) path.now value self.old) }
        ensures err { OnErr result (EntersFront self.old self.new path.now value) }
    {
        enter_along(&mut self.nodes, self.alloc, path, value)
    }
}

impl<T: Copy + Drop> NameTree<T> {
    /// All nodes with their paths, in the order of paths.
    pub fn entries(&self) -> Result<List<(Path, T)>, NoMemory>
        ensures { IfOk result (λ list. list ≡ self.now) }
    {
        let mut path = Path::root(self.alloc);
        let mut found = BTreeMap::new(self.alloc);
        gather(&self.nodes, ROOT, &mut path, &mut found)?;
        listed(self.alloc, found)
    }
}

impl<T> NameTree<T> {
    /// The value at the path, or `None` where no node stands there. A node stands at the root, and
    /// below a path only where one stands at it.
    pub fn find(&self, path: &[Name]) -> Option<&T>
        ensures value { option_copied result ≡ value_at path_cmp path.now self.now }
        ensures root { IsSome (value_at path_cmp [] self.now) }
        ensures above { IfNone result (has_below path.now self.now ≡ false) }
    {
        let slot = slot_of(&self.nodes, path)?;
        let node = self.nodes.get(slot)?;
        Some(&node.value)
    }

    /// How far the path leads: how many of its first names lead to a node, as many as do, and the
    /// value of that node. The path is walked along once.
    pub fn reach(&self, path: &[Name]) -> (usize, &T)
        ensures within { result.0 ≤ length path.now }
        ensures value { value_at path_cmp (take result.0 path.now) self.now ≡ Some result.1.now }
        ensures ends { result.0 < length path.now → value_at path_cmp (take (result.0 + 1) path.now) self.now ≡ None }
    {
        let (count, slot) = reached_slot(&self.nodes, path);
        match self.nodes.get(slot) {
            Some(node) => (count, &node.value),
            None => unreachable!(),
        }
    }

    /// How many nodes there are, the root among them.
    pub fn len(&self) -> usize
        ensures { result ≡ length self.now }
    {
        self.nodes.len()
    }

    /// Whether a node stands below the path.
    pub fn has_below(&self, path: &[Name]) -> bool
        ensures { result ≡ has_below path.now self.now }
    {
        match slot_of(&self.nodes, path) {
            Some(slot) => has_entries(&self.nodes, slot),
            None => false,
        }
    }

    /// Whether a node stands below the path, and neither at this name there nor below that. Its time
    /// does not grow with the number of nodes below.
    pub fn has_beside(&self, path: &[Name], name: &Name) -> bool
        ensures { result ≡ has_beside path.now name.now self.now }
    {
        match slot_of(&self.nodes, path) {
            Some(slot) => has_other(&self.nodes, slot, name),
            None => false,
        }
    }
}

impl<T: Copy> NameTree<T> {
    /// The nodes directly below the path, each by its name, in byte order of the names.
    pub fn list(&self, path: &[Name]) -> Result<List<(Name, T)>, NoMemory>
        requires { IsSome (value_at path_cmp path.now self.now) }
        ensures { IfOk result (λ list. list ≡ listed path.now self.now) }
    {
        let slot = known_slot(&self.nodes, path);
        named_values(self.alloc, &self.nodes, slot)
    }
}
