//! The end of all use: no reference is left, each session is in `/`, and files without a name go.

ghost use Rattle.std.specs.Prelude.{◌≡◌, [], ◌+◌, ◌<◌, ◌≤◌, ◌&&◌, not, is_some, length, map, drop, slice_set, vec_len, vec_capacity};
ghost use Rattle.vfs_model.specs.FileLife.{end_of_dropped, is_linked};
ghost use Rattle.vfs_model.specs.Namespace.{life_at};
ghost use Rattle.vfs_model.specs.UmountSteps.{come_to_rest};
ghost use Rattle.plain_mounts.specs.Leaving.{live_count, rows_so_far, TreesShrink};
ghost use Rattle.plain_mounts.specs.Resting.{free_if_unlinked, free_unlinked};

use plain_nodes::changes::Change;
use plain_nodes::rows::{end_of_dropped, free_row, is_linked};
use vfs_base::{List, Path, ROWS, RowId};
use vfs_model::{Namespace, Reference};

/// The references that are left go, and each session into `/`; a file that then has no name is freed, by
/// row. The changes that are told have room for those of the rows.
#[tactic(auto, unfolding(vfs_model::specs::UmountSteps::come_to_rest))]
pub fn come_to_rest(namespace: &mut Namespace, changes: &mut Vec<Change>)
    requires live_files { length namespace.old.live_files ≡ 1024 }
    requires empty { changes.old.items ≡ [] }
    requires room { vec_len changes.old + live_count namespace.old ≤ vec_capacity changes.old }
    ensures next { come_to_rest namespace.old ≡ rows_so_far namespace.new changes.new.items }
    ensures live_files { length namespace.new.live_files ≡ 1024 }
    ensures trees { TreesShrink namespace.old namespace.new }
    ensures room { vec_len changes.new + live_count namespace.new ≤ vec_capacity changes.new }
{
    end_references(&mut namespace.references);
    leave_folders(&mut namespace.working_directories);
    free_unlinked(namespace, changes);
}

fn end_references(references: &mut List<Option<Reference>>)
    ensures { references.new ≡ map (λ reference. None) references.old }
{
    for place in 0..references.len() {
        references.set(place, None);
    }
}

fn leave_folders(working_directories: &mut List<Path>)
    ensures { working_directories.new ≡ map (λ folder. []) working_directories.old }
{
    for place in 0..working_directories.len() {
        leave_folder(working_directories, place);
    }
}

fn leave_folder(working_directories: &mut List<Path>, place: usize)
    ensures { working_directories.new ≡ slice_set working_directories.old place [] }
{
    let folders = working_directories.as_mut_slice();
    if place < folders.len() {
        folders[place].clear();
    }
}

// Frees the files that stand at no path, by row.
fn free_unlinked(namespace: &mut Namespace, changes: &mut Vec<Change>)
    requires live_files { length namespace.old.live_files ≡ 1024 }
    requires room { vec_len changes.old + live_count namespace.old ≤ vec_capacity changes.old }
    ensures next { free_unlinked (rows_so_far namespace.old changes.old.items) ≡ rows_so_far namespace.new changes.new.items }
    ensures live_files { length namespace.new.live_files ≡ 1024 }
    ensures trees { namespace.new.trees ≡ namespace.old.trees }
    ensures room { vec_len changes.new + live_count namespace.new ≤ vec_capacity changes.new }
{
    for place in 0..ROWS {
        free_if_unlinked(namespace, place, changes);
    }
}

// Frees the row at this place, counted from 0, if its file stands at no path.
#[tactic(auto, unfolding(vfs_model::specs::FileLife::free_row))]
fn free_if_unlinked(namespace: &mut Namespace, place: u16, changes: &mut Vec<Change>)
    requires place { place < 1024 }
    requires live_files { length namespace.old.live_files ≡ 1024 }
    requires room { vec_len changes.old + live_count namespace.old ≤ vec_capacity changes.old }
    ensures next { rows_so_far namespace.new changes.new.items
        ≡ free_if_unlinked (rows_so_far namespace.old changes.old.items) (place + 1) }
    ensures later { drop (place + 1) namespace.new.live_files ≡ drop (place + 1) namespace.old.live_files }
    ensures live_files { length namespace.new.live_files ≡ 1024 }
    ensures trees { namespace.new.trees ≡ namespace.old.trees }
    ensures room { vec_len changes.new + live_count namespace.new ≤ vec_capacity changes.new }
{
    let Some(row) = RowId::new(place + 1) else {
        return;
    };
    if !has_unlinked_file(namespace, row) {
        return;
    }
    let end = end_of_dropped(namespace, row);
    changes.push_reserved(free_row(namespace, row, end));
}

fn has_unlinked_file(namespace: &Namespace, row: RowId) -> bool
    ensures { result ≡ (is_some (life_at namespace.now row) && not (is_linked namespace.now row)) }
{
    has_file(namespace, row) && !is_linked(namespace, row)
}

fn has_file(namespace: &Namespace, row: RowId) -> bool
    ensures { result ≡ is_some (life_at namespace.now row) }
{
    match namespace.live_files.as_slice().get(row.place()) {
        Some(life) => life.is_some(),
        None => false,
    }
}
