//! Trees: what stands at each path of one file system.

ghost use Rattle.std.specs.Prelude.{◌≡◌, ◌+◌, ◌<◌, ◌≤◌, ◌++◌, vec_len, vec_capacity, true, not, length, take, drop, filter, OnOk, OnErr};
ghost use Rattle.std.specs.List.{list_any};
ghost use Rattle.std.specs.Option.{option_copied};
ghost use Rattle.std.specs.FinMap.Entries.{find as value_at, put};
ghost use Rattle.vfs_base.specs.Path.{path_cmp};
ghost use Rattle.vfs_model.specs.Lookup.{is_prefix, is_below, node_in};
ghost use Rattle.vfs_model.specs.Namespace.{same_path};
ghost use Rattle.plain_nodes.specs.Puts.{begins_with, comes_first};

use std::cmp::Ordering;
use vfs_base::{List, Name, NoMemory, NodeKind, Path};

/// Whether the path is the front or lies below it.
pub fn is_prefix(front: &[Name], path: &[Name]) -> bool
    ensures { result ≡ is_prefix front.now path.now }
{
    path.starts_with(front)
}

/// Whether the path lies below the front.
pub fn is_below(front: &[Name], path: &[Name]) -> bool
    ensures { result ≡ is_below front.now path.now }
{
    is_prefix(front, path) && front.len() < path.len()
}

/// Whether the paths are the same.
pub fn same_path(p: &[Name], q: &[Name]) -> bool
    ensures { result ≡ same_path p.now q.now }
{
    p == q
}

/// What stands at the path among entries by path, if anything does.
#[tactic(auto, using(crate::proofs::Entries::found_at, crate::proofs::Entries::passed_at))]
pub fn value_at<'a, V>(path: &[Name], entries: &'a [(Path, V)]) -> Option<&'a V>
    ensures { option_copied result ≡ value_at path_cmp path.now entries.now }
{
    for entry in entries {
        if same_path(path, entry.0.as_names()) {
            return Some(&entry.1);
        }
    }
    None
}

/// What stands at the path in a tree; its root is a folder.
pub fn node_in(tree: &[(Path, NodeKind)], path: &[Name]) -> Option<NodeKind>
    ensures { result ≡ node_in tree.now path.now }
{
    if path.is_empty() {
        return Some(NodeKind::Dir);
    }
    value_at(path, tree).copied()
}

/// Whether the tree has a node below the path.
pub fn has_below(tree: &[(Path, NodeKind)], path: &[Name]) -> bool
    ensures { result ≡ list_any (λ entry. is_below path.now entry.0) tree.now }
{
    tree.iter().any(|entry| is_below(path, entry.0.as_names()))
}

/// Puts a value at the path into entries in the order of paths, in place of the one that is there.
#[tactic(auto, using(crate::proofs::Puts::put_as_insert, crate::proofs::Puts::put_as_set))]
pub fn put_entry<V: Drop>(
    entries: &mut List<(Path, V)>,
    path: Path,
    value: V,
) -> Result<(), NoMemory>
    ensures ok { OnOk result (entries.new ≡ put path_cmp path value entries.old) }
    ensures err { OnErr result (entries.new ≡ entries.old) }
{
    let place = place_of(&path, entries.as_slice());
    if is_at(&path, entries.as_slice(), place) {
        entries.set(place, (path, value));
        return Ok(());
    }
    entries.insert(place, (path, value))
}

/// Puts a value at the path into entries in the order of paths, which have room for one more.
#[tactic(auto, using(crate::proofs::Puts::put_as_insert, crate::proofs::Puts::put_as_set))]
pub fn put_reserved<V: Drop>(items: &mut Vec<(Path, V)>, path: Path, value: V)
    requires { vec_len items.old < vec_capacity items.old }
    ensures items { items.new.items ≡ put path_cmp path value items.old.items }
    ensures len { vec_len items.new ≤ vec_len items.old + 1 }
    ensures capacity { vec_capacity items.old ≤ vec_capacity items.new }
{
    let place = place_of(&path, items.as_slice());
    if is_at(&path, items.as_slice(), place) {
        items[place] = (path, value);
        return;
    }
    let inserted = items.insert(place, (path, value));
    prove!(inserted.is_ok());
}

// The number of entries that come before the path.
#[tactic(auto, using(crate::proofs::Puts::put_on, crate::proofs::Puts::comes_at))]
fn place_of<V>(path: &Path, entries: &[(Path, V)]) -> usize
    ensures bound { result ≤ length entries.now }
    ensures before { (value : V) → take result entries.now ++ put path_cmp path.now value (drop result entries.now) ≡ put path_cmp path.now value entries.now }
    ensures first { comes_first path.now (drop result entries.now) ≡ true }
{
    let mut place = 0;
    for entry in entries {
        if path.cmp(&entry.0) != Ordering::Greater {
            return place;
        }
        place += 1;
    }
    place
}

// Whether the entry at the place has this path.
#[tactic(auto, using(crate::proofs::Puts::begins_at))]
fn is_at<V>(path: &Path, entries: &[(Path, V)], place: usize) -> bool
    ensures { result ≡ begins_with path.now (drop place entries.now) }
{
    if entries.len() <= place {
        return false;
    }
    same_path(path.as_names(), entries[place].0.as_names())
}

/// Takes the entry at the path away, if there is one.
pub fn remove_entry(entries: &mut List<(Path, NodeKind)>, path: &[Name])
    ensures { entries.new ≡ filter (λ entry. not (same_path entry.0 path.now)) entries.old }
{
    entries.retain(|entry| !same_path(entry.0.as_names(), path));
}
