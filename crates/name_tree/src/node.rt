//! The nodes of a tree of names, each in its slot, and what is found among them.

ghost use Rattle.std.specs.Prelude.{◌≡◌, ◌≢◌, ◌≤◌, ◌<◌, ◌+◌, [], ◌∷◌, ◌++◌, not, ◌==◌, length, take, None, Some, IfOk, OnOk, IsSome};
ghost use Rattle.std.specs.List.Sorted.{IsStrictlySortedBy};
ghost use Rattle.std.specs.Map.{keys_of};
ghost use Rattle.vfs_model.specs.NormalPath.{parent_of};
ghost use Rattle.name_tree.specs.Changes.{named_values, with_name};
ghost use Rattle.name_tree.specs.Layout.{child_in, entries_in, has_other, name_cmp, value_in, walk};

use slab::Slab;
use std::alloc::Global;
use std::collections::BTreeMap;
use vfs_base::{List, Name, NoMemory};

/// What stands at a path: its value, and where its entries lead.
#[derive(Drop)]
pub struct Node<T> {
    pub value: T,
    // By name, the slot of the node of that name.
    pub entries: BTreeMap<Name, usize>,
}

/// The slot of the root.
pub const ROOT: usize = 0;

// A path as the path of its parent and its last name.
pub fn split_name(path: &[Name]) -> (&[Name], &Name)
    requires { path.now ≢ [] }
    ensures path { path.now ≡ result.0.now ++ result.1.now ∷ [] }
    ensures parent { result.0.now ≡ parent_of path.now }
{
    match path.split_last() {
        Some((name, front)) => (front, name),
        None => unreachable!(),
    }
}

// The slot of the entry of this name below the node of a slot.
pub fn child_of<T>(nodes: &Slab<Node<T>>, slot: usize, name: &Name) -> Option<usize>
    ensures { result ≡ child_in nodes.now.slots slot name.now }
{
    nodes.get(slot)?.entries.get(name).copied()
}

// The slot to which the names lead from the root on.
pub fn slot_of<T>(nodes: &Slab<Node<T>>, path: &[Name]) -> Option<usize>
    ensures { result ≡ walk (child_in nodes.now.slots) 0 path.now }
{
    let mut slot = ROOT;
    for name in path {
        slot = child_of(nodes, slot, name)?;
    }
    Some(slot)
}

// How many of the first names lead from the root on to a node, as many as do, and its slot.
pub fn reached_slot<T>(nodes: &Slab<Node<T>>, path: &[Name]) -> (usize, usize)
    ensures within { result.0 ≤ length path.now }
    ensures leads { walk (child_in nodes.now.slots) 0 (take result.0 path.now) ≡ Some result.1 }
    ensures ends { result.0 < length path.now → walk (child_in nodes.now.slots) 0 (take (result.0 + 1) path.now) ≡ None }
{
    let mut slot = ROOT;
    for at in 0..path.len() {
        match child_of(nodes, slot, &path[at]) {
            Some(below) => slot = below,
            None => return (at, slot),
        }
    }
    (path.len(), slot)
}

// The slot to which the names lead from the root on, where they lead to a node.
pub fn known_slot<T>(nodes: &Slab<Node<T>>, path: &[Name]) -> usize
    requires { IsSome (walk (child_in nodes.now.slots) 0 path.now) }
    ensures { walk (child_in nodes.now.slots) 0 path.now ≡ Some result }
{
    match slot_of(nodes, path) {
        Some(slot) => slot,
        None => unreachable!(),
    }
}

// Whether the node of a slot has entries.
pub fn has_entries<T>(nodes: &Slab<Node<T>>, slot: usize) -> bool
    ensures { result ≡ not (length (entries_in nodes.now.slots slot) == 0) }
{
    match nodes.get(slot) {
        Some(node) => !node.entries.is_empty(),
        None => false,
    }
}

// Whether the node of a slot has an entry of another name.
pub fn has_other<T>(nodes: &Slab<Node<T>>, slot: usize, name: &Name) -> bool
    ensures { result ≡ has_other name.now (entries_in nodes.now.slots slot) }
{
    match nodes.get(slot) {
        Some(node) => is_other_there(&node.entries, name),
        None => false,
    }
}

// Whether an entry has another name. At most two are looked at.
fn is_other_there(entries: &BTreeMap<Name, usize>, name: &Name) -> bool
    ensures { result ≡ has_other name.now entries.now.entries }
{
    entries.keys().any(|key| key != name)
}

// The values to which the entries of a slot's node lead, each by its name, in byte order.
pub fn named_values<T: Copy>(
    alloc: Global,
    nodes: &Slab<Node<T>>,
    slot: usize,
) -> Result<List<(Name, T)>, NoMemory>
    ensures list { IfOk result (λ list. list ≡ named_values nodes.now.slots (entries_in nodes.now.slots slot)) }
    ensures ordered { OnOk result (IsStrictlySortedBy name_cmp (keys_of (entries_in nodes.now.slots slot))) }
{
    match nodes.get(slot) {
        Some(node) => entry_values(alloc, nodes, &node.entries),
        None => Ok(List::new(alloc)),
    }
}

// The values to which entries lead, each by its name.
fn entry_values<T: Copy>(
    alloc: Global,
    nodes: &Slab<Node<T>>,
    entries: &BTreeMap<Name, usize>,
) -> Result<List<(Name, T)>, NoMemory>
    ensures list { IfOk result (λ list. list ≡ named_values nodes.now.slots entries.now.entries) }
    ensures ordered { OnOk result (IsStrictlySortedBy name_cmp (keys_of entries.now.entries)) }
{
    let mut list = List::new(alloc);
    for (name, slot) in entries.iter() {
        push_value(&mut list, nodes, name, *slot)?;
    }
    Ok(list)
}

// Puts the value of a slot's node at the end, with its name.
fn push_value<T: Copy>(
    list: &mut List<(Name, T)>,
    nodes: &Slab<Node<T>>,
    name: &Name,
    slot: usize,
) -> Result<(), NoMemory>
    ensures { OnOk result (list.new ≡ list.old ++ with_name name.now (value_in nodes.now.slots slot) []) }
{
    if let Some(node) = nodes.get(slot) {
        list.push((name.copy()?, node.value))?;
    }
    Ok(())
}
