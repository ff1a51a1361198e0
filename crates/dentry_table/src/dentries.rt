//! The dentries of a table: the paths in use, and those above them.

ghost use Rattle.std.specs.Prelude.{◌≡◌, ◌≢◌, ◌<◌, ◌-◌, ◌^◌, ◌||◌, ◌==◌, not, [], None, IsTrue, OnOk, OnErr};
ghost use Rattle.std.specs.FinMap.Entries.{find as value_at};
ghost use Rattle.vfs_base.specs.Path.{path_cmp};
ghost use Rattle.vfs_model.specs.Lookup.{is_prefix};
ghost use Rattle.vfs_model.specs.NormalPath.{parent_of};
ghost use Rattle.name_tree.specs.Listed.{has_below};
ghost use Rattle.dentry_table.specs.DentryTable.{count_at, held, Lowers, Raises, SameCounts, Takes};
ghost use Rattle.dentry_table.specs.Tidy.{IsTidy, IsTidyBut};

use name_tree::NameTree;
use vfs_base::{List, Name, NoMemory, Path};

// How many holders the path has.
pub fn count_in(counts: &NameTree<u32>, path: &[Name]) -> u32
    ensures { result ≡ count_at counts.now path.now }
{
    match counts.find(path) {
        Some(count) => *count,
        None => 0,
    }
}

// One holder of the path more.
pub fn raise(counts: &mut NameTree<u32>, path: &[Name], room: &[Name]) -> Result<(), NoMemory>
    requires room { count_at counts.old path.now < 2 ^ 32 - 1 }
    requires tidy { IsTidy counts.old room.now }
    ensures ok { OnOk result (Raises counts.old counts.new path.now) }
    ensures err { OnErr result (SameCounts counts.old counts.new) }
    ensures held { OnErr result (count_at counts.old path.now ≡ 0) }
    ensures tidy { IsTidy counts.new room.now }
{
    match counts.find(path) {
        Some(count) => {
            let more = *count + 1;
            counts.set(path, more);
            Ok(())
        }
        None => raise_first(counts, path, room),
    }
}

// The first holder of a path that has no dentry. Without memory for all dentries, those that came go.
fn raise_first(counts: &mut NameTree<u32>, path: &[Name], room: &[Name]) -> Result<(), NoMemory>
    requires inner { path.now ≢ [] }
    requires absent { value_at path_cmp path.now counts.old ≡ None }
    requires tidy { IsTidy counts.old room.now }
    ensures ok { OnOk result (Raises counts.old counts.new path.now) }
    ensures err { OnErr result (SameCounts counts.old counts.new) }
    ensures tidy { IsTidy counts.new room.now }
{
    match counts.enter(path, 0) {
        Ok(()) => {
            counts.set(path, 1);
            Ok(())
        }
        Err(fault) => {
            prune(counts, path, room);
            Err(fault)
        }
    }
}

// One holder of the path less.
pub fn lower(counts: &mut NameTree<u32>, path: &[Name], room: &[Name])
    requires held { count_at counts.old path.now ≢ 0 }
    requires tidy { IsTidy counts.old room.now }
    ensures counts { Lowers counts.old counts.new path.now }
    ensures tidy { IsTidy counts.new room.now }
{
    let count = count_in(counts, path);
    counts.set(path, count - 1);
    prune(counts, path, room);
}

// The path has no holder any more. Answers how many it had.
pub fn clear(counts: &mut NameTree<u32>, path: &[Name], room: &[Name]) -> u32
    requires { IsTidy counts.old room.now }
    ensures count { result ≡ count_at counts.old path.now }
    ensures taken { Takes counts.old counts.new path.now }
    ensures tidy { IsTidy counts.new room.now }
{
    let count = count_in(counts, path);
    if count == 0 {
        return 0;
    }
    counts.set(path, 0);
    prune(counts, path, room);
    count
}

// Whether the path has a holder, or a dentry stands below it.
fn is_wanted(counts: &NameTree<u32>, path: &[Name]) -> bool
    ensures { result ≡ (has_below path.now counts.now || not (count_at counts.now path.now == 0)) }
{
    counts.has_below(path) || count_in(counts, path) != 0
}

// The dentries along the path that nothing wants go, the lowest first, each by a walk of its own.
// Those along the room stay.
pub fn prune(counts: &mut NameTree<u32>, path: &[Name], room: &[Name])
    requires { IsTidyBut counts.old room.now path.now }
    ensures counts { SameCounts counts.old counts.new }
    ensures tidy { IsTidy counts.new room.now }
{
    if is_prefix(path, room) || is_wanted(counts, path) {
        return;
    }
    counts.remove(path);
    prune(counts, parent(path), room);
}

// Of the dentries those that have holders.
pub fn keep_held(list: &mut List<(Path, u32)>)
    ensures { list.new ≡ held list.old }
{
    list.retain(|entry| entry.1 != 0);
}

// Whether the second path begins with the first.
pub fn is_prefix(front: &[Name], path: &[Name]) -> bool
    ensures { result ≡ is_prefix front.now path.now }
{
    path.starts_with(front)
}

// The path of the parent; that of the root is the root's.
pub fn parent(path: &[Name]) -> &[Name]
    ensures { result.now ≡ parent_of path.now }
{
    &path[..path.len().saturating_sub(1)]
}
