//! Nodes that come, go and move: entries lead elsewhere.

ghost use Rattle.std.specs.Prelude.{◌≡◌, ◌≢◌, ℕ, ◌+◌, List, length, Some, None, option_and_then, is_some, IsSome, if◌then◌else◌, IfOk, OnOk, OnErr};
ghost use Rattle.std.specs.BTreeMap.{get, is_at};
ghost use Rattle.slab.specs.Slab.{ContainsKey, slab_len};
ghost use Rattle.name_tree.specs.Changes.{Inserts, Redirects, Relinks, Removes, Revalues, SameNodes};
ghost use Rattle.name_tree.specs.Entered.{EntersFront, entered};
ghost use Rattle.name_tree.specs.Layout.{IsSound, child_in, name_cmp, tree_of, value_in};

use crate::node::{Node, ROOT, child_of};
use slab::Slab;
use std::alloc::Global;
use std::collections::BTreeMap;
use vfs_base::{Name, NoMemory};

// The node of a slot has another value.
pub fn set_value<T: Drop>(nodes: &mut Slab<Node<T>>, slot: usize, value: T)
    requires { ContainsKey nodes.old slot }
    ensures value { Revalues (value_in nodes.old.slots) (value_in nodes.new.slots) slot (Some value) }
    ensures entries { (other : ℕ) (name : List ℕ) → child_in nodes.new.slots other name ≡ child_in nodes.old.slots other name }
    ensures len { slab_len nodes.new ≡ slab_len nodes.old }
{
    match nodes.get_mut(slot) {
        Some(node) => node.value = value,
        None => unreachable!(),
    }
}

// The entry of this name below the node of a slot leads to another slot from now on. The slot to
// which it led is answered; where it led to one, no memory is wanted.
fn enter<T>(
    nodes: &mut Slab<Node<T>>,
    slot: usize,
    name: Name,
    to: usize,
) -> Result<Option<usize>, NoMemory>
    requires { ContainsKey nodes.old slot }
    ensures before { IfOk result (λ before. before ≡ child_in nodes.old.slots slot name) }
    ensures entry { OnOk result (Redirects (child_in nodes.old.slots) (child_in nodes.new.slots) slot name (Some to)) }
    ensures values { (other : ℕ) → value_in nodes.new.slots other ≡ value_in nodes.old.slots other }
    ensures refused { OnErr result ((other : ℕ) (key : List ℕ) → child_in nodes.new.slots other key ≡ child_in nodes.old.slots other key) }
    ensures len { slab_len nodes.new ≡ slab_len nodes.old }
    ensures vacant { nodes.new.vacant_key ≡ nodes.old.vacant_key }
    ensures capacity { nodes.new.capacity ≡ nodes.old.capacity }
{
    match nodes.get_mut(slot) {
        Some(node) => Ok(node.entries.insert(name, to)?),
        None => unreachable!(),
    }
}

// The entry of this name leads to another slot from now on. No memory is wanted.
fn set_entry(entries: &mut BTreeMap<Name, usize>, name: &Name, to: usize)
    requires { IsSome (get name_cmp entries.old name.now) }
    ensures { (other : List ℕ) → get name_cmp entries.new other ≡ (if is_at (name_cmp name.now) other then Some to else get name_cmp entries.old other) }
{
    match entries.get_mut(name) {
        Some(slot) => *slot = to,
        None => unreachable!(),
    }
}

// The entry of this name below the node of a slot, which is there, leads to another slot from now on.
fn redirect<T>(nodes: &mut Slab<Node<T>>, slot: usize, name: &Name, to: usize)
    requires { IsSome (child_in nodes.old.slots slot name.now) }
    ensures entry { Redirects (child_in nodes.old.slots) (child_in nodes.new.slots) slot name.now (Some to) }
    ensures values { (other : ℕ) → value_in nodes.new.slots other ≡ value_in nodes.old.slots other }
    ensures len { slab_len nodes.new ≡ slab_len nodes.old }
{
    match nodes.get_mut(slot) {
        Some(node) => set_entry(&mut node.entries, name, to),
        None => unreachable!(),
    }
}

// The node of a slot has no entry of this name from now on.
fn leave<T>(nodes: &mut Slab<Node<T>>, slot: usize, name: &Name)
    requires { ContainsKey nodes.old slot }
    ensures entry { Redirects (child_in nodes.old.slots) (child_in nodes.new.slots) slot name.now None }
    ensures values { (other : ℕ) → value_in nodes.new.slots other ≡ value_in nodes.old.slots other }
    ensures len { slab_len nodes.new ≡ slab_len nodes.old }
{
    match nodes.get_mut(slot) {
        Some(node) => {
            node.entries.remove(name);
        }
        None => unreachable!(),
    }
}

// A node of this value, without entries, that the entry of this name below a slot's node leads to.
pub fn insert_below<T: Drop>(
    nodes: &mut Slab<Node<T>>,
    alloc: Global,
    slot: usize,
    name: &Name,
    value: T,
) -> Result<(), NoMemory>
    requires { ContainsKey nodes.old slot }
    ensures ok { OnOk result (Inserts nodes.old.slots nodes.new.slots slot name.now value) }
    ensures err { OnErr result (SameNodes nodes.old.slots nodes.new.slots) }
    ensures more { OnOk result (slab_len nodes.new ≡ slab_len nodes.old + 1) }
    ensures same { OnErr result (slab_len nodes.new ≡ slab_len nodes.old) }
{
    let name = name.copy()?;
    nodes.reserve(1)?;
    let free = nodes.vacant_key();
    enter(nodes, slot, name, free)?;
    let entries = BTreeMap::new(alloc);
    nodes.insert_reserved(Node { value, entries });
    Ok(())
}

// A node of this value, without entries, below a slot's node that has none of this name, and its slot.
fn insert_child<T: Drop>(
    nodes: &mut Slab<Node<T>>,
    alloc: Global,
    slot: usize,
    name: &Name,
    value: T,
) -> Result<usize, NoMemory>
    requires { ContainsKey nodes.old slot }
    ensures leads { IfOk result (λ to. child_in nodes.new.slots slot name.now ≡ Some to) }
    ensures ok { OnOk result (Inserts nodes.old.slots nodes.new.slots slot name.now value) }
    ensures more { OnOk result (slab_len nodes.new ≡ slab_len nodes.old + 1) }
    ensures err { OnErr result (SameNodes nodes.old.slots nodes.new.slots) }
    ensures same { OnErr result (slab_len nodes.new ≡ slab_len nodes.old) }
{
    insert_below(nodes, alloc, slot, name, value)?;
    match child_of(nodes, slot, name) {
        Some(below) => Ok(below),
        None => unreachable!(),
    }
}

// The slot of the node of this name below a slot's node. Where there is none, one of this value comes.
fn step_down<T: Drop>(
    nodes: &mut Slab<Node<T>>,
    alloc: Global,
    slot: usize,
    name: &Name,
    value: T,
) -> Result<usize, NoMemory>
    requires { ContainsKey nodes.old slot }
    ensures leads { IfOk result (λ to. child_in nodes.new.slots slot name.now ≡ Some to) }
    ensures kept { IsSome (child_in nodes.old.slots slot name.now) → nodes.new ≡ nodes.old }
    ensures comes { child_in nodes.old.slots slot name.now ≡ None → OnOk result (Inserts nodes.old.slots nodes.new.slots slot name.now value) }
    ensures more { child_in nodes.old.slots slot name.now ≡ None → OnOk result (slab_len nodes.new ≡ slab_len nodes.old + 1) }
    ensures err { OnErr result (SameNodes nodes.old.slots nodes.new.slots) }
    ensures same { OnErr result (slab_len nodes.new ≡ slab_len nodes.old) }
{
    match child_of(nodes, slot, name) {
        Some(below) => Ok(below),
        None => insert_child(nodes, alloc, slot, name, value),
    }
}

// A node stands at each place along the path. Those that come have this value. At an error some of
// the first ones may have come.
pub fn enter_along<T: Copy + Drop>(
    nodes: &mut Slab<Node<T>>,
    alloc: Global,
    path: &[Name],
    value: T,
) -> Result<(), NoMemory>
    requires { IsSound nodes.old.slots (slab_len nodes.old) }
    ensures sound { IsSound nodes.new.slots (slab_len nodes.new) }
    ensures ok { OnOk result (tree_of nodes.new.slots ≡ entered (length path.now) path.now value (tree_of nodes.old.slots)) }
    ensures err { OnErr result (EntersFront (tree_of nodes.old.slots) (tree_of nodes.new.slots) path.now value) }
{
    let mut slot = ROOT;
    for name in path {
        slot = step_down(nodes, alloc, slot, name, value)?;
    }
    Ok(())
}

// The entry of this name leads nowhere, and the node to which it led, which has no entries, is gone.
pub fn remove_below<T: Drop>(nodes: &mut Slab<Node<T>>, at: usize, name: &Name, slot: usize) -> T
    requires parent { ContainsKey nodes.old at }
    requires there { ContainsKey nodes.old slot }
    requires bare { (other : List ℕ) → child_in nodes.old.slots slot other ≡ None }
    ensures value { value_in nodes.old.slots slot ≡ Some result }
    ensures nodes { Removes nodes.old.slots nodes.new.slots at name.now slot }
    ensures len { slab_len nodes.new + 1 ≡ slab_len nodes.old }
{
    leave(nodes, at, name);
    let Node { value, entries: _ } = nodes.remove(slot);
    value
}

// The entry of a name below a slot's node leads to a node, and the one that led there leads nowhere.
// The node to which the first one led, which has no entries, is gone, and its value is answered.
pub fn relink_below<T: Drop>(
    nodes: &mut Slab<Node<T>>,
    at: usize,
    name: &Name,
    to: usize,
    other: &Name,
    slot: usize,
) -> Result<Option<T>, NoMemory>
    requires source { ContainsKey nodes.old at }
    requires target { ContainsKey nodes.old to }
    requires there { (gone : ℕ) → child_in nodes.old.slots to other.now ≡ Some gone → ContainsKey nodes.old gone }
    requires bare { (gone : ℕ) (key : List ℕ) → child_in nodes.old.slots to other.now ≡ Some gone → child_in nodes.old.slots gone key ≡ None }
    ensures ok { OnOk result (Relinks nodes.old.slots nodes.new.slots at name.now to other.now slot) }
    ensures value { IfOk result (λ value. value ≡ option_and_then (value_in nodes.old.slots) (child_in nodes.old.slots to other.now)) }
    ensures err { OnErr result (SameNodes nodes.old.slots nodes.new.slots) }
    ensures fewer { IfOk result (λ value. slab_len nodes.new + (if is_some value then 1 else 0) ≡ slab_len nodes.old) }
    ensures same { OnErr result (slab_len nodes.new ≡ slab_len nodes.old) }
{
    let replaced = enter(nodes, to, other.copy()?, slot)?;
    leave(nodes, at, name);
    match replaced {
        Some(gone) => {
            let Node { value, entries: _ } = nodes.remove(gone);
            Ok(Some(value))
        }
        None => Ok(None),
    }
}

// The entry of a name below a slot's node leads to a node, and the one that led there leads nowhere.
// The node to which the first one led, which has no entries, is gone. No memory is wanted.
pub fn replace_below<T: Drop>(
    nodes: &mut Slab<Node<T>>,
    at: usize,
    name: &Name,
    to: usize,
    other: &Name,
    slot: usize,
    gone: usize,
) -> T
    requires source { ContainsKey nodes.old at }
    requires target { child_in nodes.old.slots to other.now ≡ Some gone }
    requires there { ContainsKey nodes.old gone }
    requires bare { (key : List ℕ) → child_in nodes.old.slots gone key ≡ None }
    ensures nodes { Relinks nodes.old.slots nodes.new.slots at name.now to other.now slot }
    ensures value { value_in nodes.old.slots gone ≡ Some result }
    ensures fewer { slab_len nodes.new + 1 ≡ slab_len nodes.old }
{
    redirect(nodes, to, other, slot);
    leave(nodes, at, name);
    let Node { value, entries: _ } = nodes.remove(gone);
    value
}
