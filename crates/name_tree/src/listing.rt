//! All nodes of a tree, each with its path.

ghost use Rattle.std.specs.Prelude.{◌≡◌, Some, IfOk, OnOk};
ghost use Rattle.name_tree.specs.Gathered.{gathered};
ghost use Rattle.name_tree.specs.Layout.{IsTree, child_in, value_in, walk};

use crate::node::Node;
use slab::Slab;
use std::alloc::Global;
use std::collections::BTreeMap;
use vfs_base::{List, NoMemory, Path};

// Puts the value of the node of a slot, to which the path leads, and those of all nodes below it
// into the map.
pub fn gather<T: Copy + Drop>(
    nodes: &Slab<Node<T>>,
    slot: usize,
    path: &mut Path,
    found: &mut BTreeMap<Path, T>,
) -> Result<(), NoMemory>
    requires tree { IsTree (value_in nodes.now.slots) (child_in nodes.now.slots) }
    requires leads { walk (child_in nodes.now.slots) 0 path.old ≡ Some slot }
    ensures path { OnOk result (path.new ≡ path.old) }
    ensures found { OnOk result (found.new.entries ≡ gathered nodes.now.slots path.old slot found.old.entries) }
{
    let Some(node) = nodes.get(slot) else {
        unreachable!();
    };
    found.insert(path.copy()?, node.value)?;
    for (name, below) in node.entries.iter() {
        path.push(name.copy()?)?;
        gather(nodes, *below, path, found)?;
        path.pop();
    }
    Ok(())
}

// The values of a map with their paths, in the order of paths.
pub fn listed<T: Drop>(alloc: Global, found: BTreeMap<Path, T>) -> Result<List<(Path, T)>, NoMemory>
    ensures { IfOk result (λ list. list ≡ found.entries) }
{
    let mut list = List::new(alloc);
    for entry in found {
        list.push(entry)?;
    }
    Ok(list)
}
