//! The move of a rename: where files that move will stand.

ghost use Rattle.std.specs.Prelude.{◌≡◌, ◌≢◌, ℕ, ◌++◌, ◌≤◌, Some, None, is_some, length, map, slice_index_or, slice_set, if◌then◌else◌, IfOk, OnOk};
ghost use Rattle.std.specs.Option.{option_or};
ghost use Rattle.vfs_base.specs.Path.{Path};
ghost use Rattle.dentry_table.specs.DentryTable.{count_at};
ghost use Rattle.vfs_model.specs.Lookup.{is_prefix};
ghost use Rattle.holders.specs.Holding.{new_path};

use dentry_table::{DentryTable, MovePlan};
use std::alloc::Global;
use std::marker::Model;
use vfs_base::{List, Name, NoMemory, Path};

/// A rename that is planned: the room of its holders, and the new paths of the files that move.
#[derive(Debug, Drop)]
pub struct RenamePlan {
    pub(crate) holders: MovePlan,
    // By row: where its file will stand, if it moves. No place, where none moves.
    pub(crate) paths: List<Option<Path>>,
}

impl Model for RenamePlan {
    ghost use Rattle.holders.specs.Holding.{Renaming};

    ghost Value = { Renaming };

    ghost view = { λ plan. record { from = plan.holders.from; to = plan.holders.to; paths = plan.paths } };
}

// The new path of each file that moves with the first path to the second, or none, where nothing is held there.
pub fn planned_paths(
    alloc: Global,
    dentries: &DentryTable,
    paths: &List<Option<Path>>,
    from: &Path,
    to: &Path,
) -> Result<List<Option<Path>>, NoMemory>
    requires { (place : ℕ) (path : Path) → slice_index_or paths.now place None ≡ Some path → count_at dentries.now.counts path ≢ 0 }
    ensures within { IfOk result (λ news. length news ≤ length paths.now) }
    ensures places { IfOk result (λ news. (place : ℕ) → slice_index_or news place None ≡ new_path from.now to.now (slice_index_or paths.now place None)) }
{
    let names = from.as_names();
    if dentries.count(names) == 0 && !dentries.held_below(names) {
        return Ok(List::new(alloc));
    }
    new_paths(alloc, paths.as_slice(), from, to)
}

// The new path of each file that moves with the first path to the second.
fn new_paths(
    alloc: Global,
    paths: &[Option<Path>],
    from: &Path,
    to: &Path,
) -> Result<List<Option<Path>>, NoMemory>
    ensures { IfOk result (λ news. news ≡ map (new_path from.now to.now) paths.now) }
{
    let mut news = List::new(alloc);
    for path in paths {
        news.push(new_path(path, from, to)?)?;
    }
    Ok(news)
}

// The new path, where the file moves.
fn new_path(path: &Option<Path>, from: &Path, to: &Path) -> Result<Option<Path>, NoMemory>
    ensures { IfOk result (λ new. new ≡ new_path from.now to.now path.now) }
{
    match path {
        Some(path) if is_within(path, from) => {
            let mut new = to.copy()?;
            append(&mut new, &path.as_names()[from.len()..])?;
            Ok(Some(new))
        }
        Some(_) | None => Ok(None),
    }
}

// Whether the path is the front or lies below it.
fn is_within(path: &Path, front: &Path) -> bool
    ensures { result ≡ is_prefix front.now path.now }
{
    path.as_names().starts_with(front.as_names())
}

// The names behind those of the path.
fn append(path: &mut Path, names: &[Name]) -> Result<(), NoMemory>
    ensures { OnOk result (path.new ≡ path.old ++ names.now) }
{
    for name in names {
        path.push(name.copy()?)?;
    }
    Ok(())
}

// Each file that moves stands at its new path.
pub fn take_paths(paths: &mut List<Option<Path>>, mut news: List<Option<Path>>)
    requires { length news ≤ length paths.old }
    ensures length { length paths.new ≡ length paths.old }
    ensures paths { (place : ℕ) → slice_index_or paths.new place None ≡ option_or (slice_index_or news place None) (slice_index_or paths.old place None) }
{
    for place in 0..news.len() {
        take_path(paths, place, news.replace(place, None));
    }
}

// The file stands at its new path, if it moves.
fn take_path(paths: &mut List<Option<Path>>, place: usize, new: Option<Path>)
    ensures { paths.new ≡ (if is_some new then slice_set paths.old place new else paths.old) }
{
    if new.is_some() {
        paths.set(place, new);
    }
}
