//! A node of a record moves with all below it. No other node is copied or looked at.

ghost use Rattle.std.specs.Prelude.{◌≡◌, ◌++◌, T, None, Some, drop, fold, false, length, IfOk, OnErr, OnOk};
ghost use Rattle.std.specs.FinMap.Entries.{find as value_at, is_sorted, put};
ghost use Rattle.std.specs.List.{list_any};
ghost use Rattle.vfs_base.specs.Path.{IsPath, path_cmp};
ghost use Rattle.vfs_model.specs.Lookup.{is_below, is_prefix};
ghost use Rattle.node_maps.specs.IsFault.{AnswersBy};
ghost use Rattle.node_maps.specs.NodeMap.{moved, put_entry, rename_refusal};
ghost use Rattle.cell_volume.specs.Below.{KeepsOthers, below_in, carried_to, without_entry};
ghost use Rattle.cell_volume.specs.MountedVolume.{ArePaths, is_dir};

use crate::below::nodes_below;
use crate::nodes::{is_folder, node_at, remove_node};
use node_maps::TreeFault;
use std::alloc::Global;
use vfs_base::{CellNode, List, Name, NoMemory, Path, Record};

// What a move needs in memory of its own, before the record changes.
#[derive(Drop)]
struct Move {
    // The nodes below the old path.
    taken: List<(Path, CellNode)>,
    // The same nodes, as they stand below the new path.
    carried: List<(Path, CellNode)>,
    // The new path.
    key: Path,
}

/// Moves the node at old, with all below it, to new, and answers the node that stood there.
pub(crate) fn rename(
    alloc: Global,
    nodes: &mut Record,
    old: &Path,
    new: &Path,
) -> Result<Option<CellNode>, TreeFault>
    requires ordered { T (is_sorted path_cmp nodes.old.entries) }
    requires paths { ArePaths nodes.old.entries }
    requires apart { is_prefix old.now new.now ≡ false }
    requires beside { is_prefix new.now old.now ≡ false }
    requires bare { list_any (λ entry. is_below new.now entry.0) nodes.old.entries ≡ false }
    ensures ok { IfOk result (λ replaced. replaced ≡ value_at path_cmp new.now nodes.old.entries) }
    ensures next { OnOk result (nodes.new.entries ≡ moved old.now new.now nodes.old.entries) }
    ensures fault { AnswersBy (rename_refusal is_dir nodes.old.entries old.now new.now) result }
    ensures err { OnErr result (nodes.new.entries ≡ nodes.old.entries) }
    ensures path { IsPath new.now }
{
    let _names = new.as_names();
    let node = match may_rename(nodes, old, new) {
        Ok(node) => node,
        Err(fault) => return Err(fault),
    };
    let Ok(step) = plan_move(alloc, nodes, old, new) else {
        return Err(TreeFault::NoMemory);
    };
    match carry_out(nodes, step, old, node) {
        Ok(replaced) => Ok(replaced),
        Err(_) => Err(TreeFault::NoMemory),
    }
}

// The node at old, where it may be moved to new.
fn may_rename(nodes: &Record, old: &Path, new: &Path) -> Result<CellNode, TreeFault>
    ensures ok { IfOk result (λ node. value_at path_cmp old.now nodes.now.entries ≡ Some node) }
    ensures fault { AnswersBy (rename_refusal is_dir nodes.now.entries old.now new.now) result }
{
    let mut parent = new.copy()?;
    let _name = parent.pop();
    let Some(node) = node_at(nodes, old) else {
        return Err(TreeFault::NotFound);
    };
    if !is_folder(nodes, &parent) {
        return Err(TreeFault::NotFound);
    }
    Ok(node)
}

fn plan_move(alloc: Global, nodes: &Record, old: &Path, new: &Path) -> Result<Move, NoMemory>
    requires { ArePaths nodes.now.entries }
    ensures taken { IfOk result (λ step. step.taken ≡ below_in old.now nodes.now.entries) }
    ensures carried { IfOk result (λ step. step.carried ≡ carried_to old.now new.now (below_in old.now nodes.now.entries)) }
    ensures key { IfOk result (λ step. step.key ≡ new.now) }
{
    let taken = nodes_below(alloc, nodes, old)?;
    let carried = carried_nodes(alloc, taken.as_slice(), old, new)?;
    let key = new.copy()?;
    Ok(Move {
        taken,
        carried,
        key,
    })
}

// The nodes, each at the path that it has once old stands at new.
fn carried_nodes(
    alloc: Global,
    taken: &[(Path, CellNode)],
    old: &Path,
    new: &Path,
) -> Result<List<(Path, CellNode)>, NoMemory>
    ensures { IfOk result (λ carried. carried ≡ carried_to old.now new.now taken.now) }
{
    let mut carried = List::new(alloc);
    for (path, node) in taken {
        let names = names_from(path.as_names(), old.len());
        carried.push((carried_path(new, names)?, *node))?;
    }
    Ok(carried)
}

fn names_from(names: &[Name], from: usize) -> &[Name]
    ensures { result.now ≡ drop from names.now }
{
    if from <= names.len() {
        &names[from..]
    } else {
        &[]
    }
}

fn carried_path(new: &Path, names: &[Name]) -> Result<Path, NoMemory>
    ensures { IfOk result (λ path. path ≡ new.now ++ names.now) }
{
    let mut path = new.copy()?;
    for name in names {
        path.push(name.copy()?)?;
    }
    Ok(path)
}

// Where there is no memory for the new places, all that came there goes again.
fn carry_out(
    nodes: &mut Record,
    step: Move,
    old: &Path,
    node: CellNode,
) -> Result<Option<CellNode>, NoMemory>
    requires ordered { T (is_sorted path_cmp nodes.old.entries) }
    requires taken { step.taken ≡ below_in old.now nodes.old.entries }
    requires carried { step.carried ≡ carried_to old.now step.key (below_in old.now nodes.old.entries) }
    requires there { value_at path_cmp old.now nodes.old.entries ≡ Some node }
    requires apart { is_prefix old.now step.key ≡ false }
    requires beside { is_prefix step.key old.now ≡ false }
    requires bare { list_any (λ entry. is_below step.key entry.0) nodes.old.entries ≡ false }
    ensures ok { IfOk result (λ replaced. replaced ≡ value_at path_cmp step.key nodes.old.entries) }
    ensures next { OnOk result (nodes.new.entries ≡ moved old.now step.key nodes.old.entries) }
    ensures err { OnErr result (nodes.new.entries ≡ nodes.old.entries) }
{
    let Move {
        taken,
        carried,
        key,
    } = step;
    let Ok(replaced) = put_moved(nodes, carried.as_slice(), key, node) else {
        remove_all(nodes, carried.as_slice());
        return Err(NoMemory);
    };
    remove_node(nodes, old);
    remove_all(nodes, taken.as_slice());
    Ok(replaced)
}

// Puts the nodes and at last the one at the key, whose place may be taken. At an error a part of the
// others is there.
#[tactic(auto, using(vfs_base::proofs::PathMaps::putting))]
fn put_moved(
    nodes: &mut Record,
    carried: &[(Path, CellNode)],
    key: Path,
    node: CellNode,
) -> Result<Option<CellNode>, NoMemory>
    requires { T (is_sorted path_cmp nodes.old.entries) }
    ensures ok { IfOk result (λ replaced. replaced ≡ value_at path_cmp key (fold put_entry nodes.old.entries carried.now)) }
    ensures next { OnOk result (nodes.new.entries ≡ put path_cmp key node (fold put_entry nodes.old.entries carried.now)) }
    ensures err { OnErr result (KeepsOthers carried.now nodes.old.entries nodes.new.entries) }
    ensures ordered { T (is_sorted path_cmp nodes.new.entries) }
{
    put_all(nodes, carried)?;
    Ok(nodes.insert(key, node)?)
}

#[tactic(auto, using(vfs_base::proofs::PathMaps::putting))]
fn put_all(nodes: &mut Record, carried: &[(Path, CellNode)]) -> Result<(), NoMemory>
    requires { T (is_sorted path_cmp nodes.old.entries) }
    ensures ok { OnOk result (nodes.new.entries ≡ fold put_entry nodes.old.entries carried.now) }
    ensures others { KeepsOthers carried.now nodes.old.entries nodes.new.entries }
    ensures ordered { T (is_sorted path_cmp nodes.new.entries) }
{
    for (path, node) in carried {
        nodes.insert(path.copy()?, *node)?;
    }
    Ok(())
}

// Takes away what stands at the paths of the entries.
fn remove_all(nodes: &mut Record, gone: &[(Path, CellNode)])
    requires { T (is_sorted path_cmp nodes.old.entries) }
    ensures { nodes.new.entries ≡ fold without_entry nodes.old.entries gone.now }
{
    for (path, _) in gone {
        remove_node(nodes, path);
    }
}
