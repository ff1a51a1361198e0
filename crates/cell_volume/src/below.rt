//! What lies below a folder of a record: a range of it, in the order of paths.

ghost use Rattle.std.specs.Prelude.{◌≡◌, [], ◌∷◌, ◌++◌, IfOk, OnOk, if◌then◌else◌};
ghost use Rattle.vfs_model.specs.Lookup.{is_below, is_prefix};
ghost use Rattle.vfs_model.specs.NameSteps.{is_entry_of, last_name};
ghost use Rattle.cell_volume.specs.Below.{below_in, least_below};
ghost use Rattle.cell_volume.specs.MountedVolume.{ArePaths, entries_at};

use crate::cell_entry::CellEntry;
use std::alloc::Global;
use vfs_base::{Bytes, CellNode, List, Name, NoMemory, Path, Record};

/// The nodes below the folder at the path. No other node is looked at, but for one behind them.
pub(crate) fn nodes_below(
    alloc: Global,
    nodes: &Record,
    folder: &Path,
) -> Result<List<(Path, CellNode)>, NoMemory>
    requires { ArePaths nodes.now.entries }
    ensures { IfOk result (λ below. below ≡ below_in folder.now nodes.now.entries) }
{
    let front = folder.as_names();
    let mut below = List::new(alloc);
    for (path, node) in nodes.range(least_below(alloc, folder)?..) {
        if !is_below(front, path.as_names()) {
            return Ok(below);
        }
        below.push((path.copy()?, *node))?;
    }
    Ok(below)
}

/// What is in the folder at the path, in byte order of the names. Of the other nodes only those
/// below the folder are looked at, and one behind them.
pub(crate) fn entries_in(
    alloc: Global,
    nodes: &Record,
    folder: &Path,
) -> Result<List<CellEntry>, NoMemory>
    requires { ArePaths nodes.now.entries }
    ensures { IfOk result (λ entries. entries ≡ entries_at nodes.now.entries folder.now) }
{
    let front = folder.as_names();
    let mut entries = List::new(alloc);
    for (path, node) in nodes.range(least_below(alloc, folder)?..) {
        if !is_below(front, path.as_names()) {
            return Ok(entries);
        }
        push_entry(&mut entries, front, path, *node)?;
    }
    Ok(entries)
}

// The path of the least name in the folder.
fn least_below(alloc: Global, folder: &Path) -> Result<Path, NoMemory>
    ensures { IfOk result (λ path. path ≡ least_below folder.now) }
{
    let mut path = folder.copy()?;
    path.push(least_name(alloc)?)?;
    Ok(path)
}

// The name that comes before all others.
fn least_name(alloc: Global) -> Result<Name, NoMemory>
    ensures { IfOk result (λ name. name ≡ 1 ∷ []) }
{
    let mut bytes = Bytes::new(alloc);
    bytes.push(1)?;
    Ok(Name::from_bytes(bytes).unwrap())
}

fn is_below(front: &[Name], path: &[Name]) -> bool
    ensures { result ≡ is_below front.now path.now }
{
    is_prefix(front, path) && front.len() < path.len()
}

fn is_prefix(front: &[Name], path: &[Name]) -> bool
    ensures { result ≡ is_prefix front.now path.now }
{
    path.starts_with(front)
}

fn push_entry(
    entries: &mut List<CellEntry>,
    front: &[Name],
    path: &Path,
    node: CellNode,
) -> Result<(), NoMemory>
    ensures { OnOk result (entries.new
        ≡ entries.old ++ (if is_entry_of front.now path.now then record { name = last_name path.now; node = node } ∷ [] else [])) }
{
    if !is_entry_of(front, path.as_names()) {
        return Ok(());
    }
    let Some(name) = path.as_names().last() else {
        return Ok(());
    };
    let name = name.copy()?;
    entries.push(CellEntry { name, node })
}

fn is_entry_of(folder: &[Name], path: &[Name]) -> bool
    ensures { result ≡ is_entry_of folder.now path.now }
{
    is_prefix(folder, path) && path.len() == folder.len() + 1
}
