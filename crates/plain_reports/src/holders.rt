//! How many holders each path has, and each file without a name.

ghost use Rattle.std.specs.Prelude.{◌≡◌, ◌∷◌, [], ◌++◌, map, filter, find, flat_map, option_to_list, not, IfOk, OnOk};
ghost use Rattle.std.specs.Option.{option_copied};
ghost use Rattle.vfs_model.specs.FileLife.{is_file_of_row, is_linked};
ghost use Rattle.vfs_model.specs.Holders.{holder_lines, holder_paths, nameless_row, nameless_rows, path_in_mount, path_line, paths_of_row, reference_paths, row_line};
ghost use Rattle.vfs_model.specs.Namespace.{tree_of};
ghost use Rattle.vfs_model.specs.Sizes.{IsSized};

use crate::counting::counted;
use plain_nodes::lookup::tree_of;
use plain_nodes::paths::push_names;
use plain_nodes::rows::{is_file_of_row, is_linked};
use std::alloc::Global;
use std::collections::BTreeMap;
use vfs_base::{HolderLine, HolderPlace, List, Name, NoMemory, NodeKind, Path, RowId};
use vfs_model::{Mount, Namespace, Reference};

/// The holders of each path that has any, in the order of paths, and then of each file without a
/// name, by row.
#[tactic(auto, using(crate::proofs::HolderCounts::paths_fit, crate::proofs::HolderCounts::rows_fit), unfolding(vfs_model::specs::Holders::holder_lines))]
pub fn holder_lines(namespace: &Namespace, alloc: Global) -> Result<List<HolderLine>, NoMemory>
    requires { IsSized namespace.now }
    ensures { IfOk result (λ lines. lines ≡ holder_lines namespace.now) }
{
    let paths = counted(alloc, holder_paths(namespace, alloc)?)?;
    let rows = counted(alloc, nameless_rows(namespace, alloc)?)?;
    let mut lines = List::new(alloc);
    push_path_lines(&mut lines, paths)?;
    push_row_lines(&mut lines, rows)?;
    Ok(lines)
}

fn push_path_lines(
    lines: &mut List<HolderLine>,
    counts: BTreeMap<Path, u32>,
) -> Result<(), NoMemory>
    ensures { OnOk result (lines.new ≡ lines.old ++ map path_line counts.entries) }
{
    for (path, count) in counts {
        let place = HolderPlace::At { path };
        lines.push(HolderLine { place, count })?;
    }
    Ok(())
}

fn push_row_lines(
    lines: &mut List<HolderLine>,
    counts: BTreeMap<RowId, u32>,
) -> Result<(), NoMemory>
    ensures { OnOk result (lines.new ≡ lines.old ++ map row_line counts.entries) }
{
    for (row, count) in counts {
        let place = HolderPlace::Row { row };
        lines.push(HolderLine { place, count })?;
    }
    Ok(())
}

// The path of each holder: a reference to the file that stands there, a session's working
// directory, or a mount.
fn holder_paths(namespace: &Namespace, alloc: Global) -> Result<List<Path>, NoMemory>
    ensures { IfOk result (λ paths. paths ≡ holder_paths namespace.now) }
{
    let mut paths = List::new(alloc);
    push_references(&mut paths, namespace)?;
    push_folders(&mut paths, namespace.working_directories.as_slice())?;
    paths.push(namespace.root.point.copy()?)?;
    push_points(&mut paths, namespace.mounts.as_slice())?;
    Ok(paths)
}

fn push_references(paths: &mut List<Path>, namespace: &Namespace) -> Result<(), NoMemory>
    ensures { OnOk result (paths.new ≡ paths.old ++ flat_map (reference_paths namespace.now) namespace.now.references) }
{
    let references = namespace.references.as_slice();
    for reference in references {
        push_reference(paths, namespace, reference)?;
    }
    Ok(())
}

fn push_reference(
    paths: &mut List<Path>,
    namespace: &Namespace,
    reference: &Option<Reference>,
) -> Result<(), NoMemory>
    ensures { OnOk result (paths.new ≡ paths.old ++ reference_paths namespace.now reference.now) }
{
    match reference {
        None => Ok(()),
        Some(reference) => push_row(paths, namespace, reference.file.row),
    }
}

// Puts the paths at which the row's file stands at the end.
fn push_row(paths: &mut List<Path>, namespace: &Namespace, row: RowId) -> Result<(), NoMemory>
    ensures { OnOk result (paths.new ≡ paths.old ++ paths_of_row namespace.now row) }
{
    push_in_mount(paths, namespace, row, &namespace.root)?;
    let mounts = namespace.mounts.as_slice();
    for mount in mounts {
        push_in_mount(paths, namespace, row, mount)?;
    }
    Ok(())
}

fn push_in_mount(
    paths: &mut List<Path>,
    namespace: &Namespace,
    row: RowId,
    mount: &Mount,
) -> Result<(), NoMemory>
    ensures { OnOk result (paths.new ≡ paths.old ++ option_to_list (path_in_mount namespace.now row mount.now)) }
{
    match entry_of_row(tree_of(namespace, mount.number), row) {
        None => Ok(()),
        Some(entry) => paths.push(joined(&mount.point, entry.0.as_names())?),
    }
}

// The entry of the row's file in a tree.
fn entry_of_row(tree: &[(Path, NodeKind)], row: RowId) -> Option<&(Path, NodeKind)>
    ensures { option_copied result ≡ find (λ entry. is_file_of_row row entry.1) tree.now }
{
    for entry in tree {
        if is_file_of_row(row, entry.1) {
            return Some(entry);
        }
    }
    None
}

// The path of these names below a point.
fn joined(point: &Path, names: &[Name]) -> Result<Path, NoMemory>
    ensures { IfOk result (λ path. path ≡ point.now ++ names.now) }
{
    let mut path = point.copy()?;
    push_names(&mut path, names)?;
    Ok(path)
}

fn push_folders(paths: &mut List<Path>, working_directories: &[Path]) -> Result<(), NoMemory>
    ensures { OnOk result (paths.new ≡ paths.old ++ working_directories.now) }
{
    for folder in working_directories {
        paths.push(folder.copy()?)?;
    }
    Ok(())
}

fn push_points(paths: &mut List<Path>, mounts: &[Mount]) -> Result<(), NoMemory>
    ensures { OnOk result (paths.new ≡ paths.old ++ map (λ mount. mount.point) mounts.now) }
{
    for mount in mounts {
        paths.push(mount.point.copy()?)?;
    }
    Ok(())
}

// The row of each reference whose file has no name any more.
fn nameless_rows(namespace: &Namespace, alloc: Global) -> Result<List<RowId>, NoMemory>
    ensures { IfOk result (λ rows. rows ≡ nameless_rows namespace.now) }
{
    let mut rows = List::new(alloc);
    let references = namespace.references.as_slice();
    for reference in references {
        push_nameless(&mut rows, namespace, reference)?;
    }
    Ok(rows)
}

fn push_nameless(
    rows: &mut List<RowId>,
    namespace: &Namespace,
    reference: &Option<Reference>,
) -> Result<(), NoMemory>
    ensures { OnOk result (rows.new ≡ rows.old ++ nameless_row namespace.now reference.now) }
{
    match reference {
        None => Ok(()),
        Some(reference) => push_unless_linked(rows, namespace, reference.file.row),
    }
}

fn push_unless_linked(
    rows: &mut List<RowId>,
    namespace: &Namespace,
    row: RowId,
) -> Result<(), NoMemory>
    ensures { OnOk result (rows.new ≡ rows.old ++ filter (λ row. not (is_linked namespace.now row)) (row ∷ [])) }
{
    if is_linked(namespace, row) {
        return Ok(());
    }
    rows.push(row)
}
