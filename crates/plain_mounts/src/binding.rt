//! What a mount begins with: its nodes, and the rows of its files. No memory is wanted.

ghost use Rattle.std.specs.Prelude.{◌≡◌, ◌∷◌, [], ◌+◌, ◌<◌, ◌≤◌, cond, is_some, length, vec_len, vec_capacity};
ghost use Rattle.vfs_model.specs.Lookup.{with_tree};
ghost use Rattle.vfs_model.specs.MountStep.{add_content, bind_content, origin_backing};
ghost use Rattle.plain_mounts.specs.Leaving.{rows_so_far};
ghost use Rattle.plain_mounts.specs.Mounting.{BringsMore, IsReady, add_entries, brought_by, entry_contents, free_count};

use crate::content::Content;
use plain_nodes::changes::Change;
use plain_nodes::rows::{bind_row, file_of, generation_at, least_free_row};
use plain_nodes::sources::kind_of;
use plain_nodes::trees::put_reserved;
use vfs_base::{NodeKind, Path};
use vfs_model::{Backing, LiveFile, Mount, Namespace, Origin};

/// The nodes of the content are put into the tree of the mount, and each of its files has a row.
#[tactic(auto, using(crate::proofs::Binds::ready_for_one, crate::proofs::Binds::ready_for_later, crate::proofs::Brings::rest_brought))]
pub fn add_entries(
    namespace: &mut Namespace,
    mount: &Mount,
    content: Content,
    tree: &mut Vec<(Path, NodeKind)>,
    changes: &mut Vec<Change>,
)
    requires number { mount.now.number < 16 }
    requires ready { IsReady namespace.old content tree.old changes.old }
    ensures contents { BringsMore changes.old.items changes.new.items (λ roms. brought_by roms content) }
    ensures next { add_entries mount.now (rows_so_far (with_tree namespace.old mount.now.number tree.old.items) changes.old.items) content
        ≡ rows_so_far (with_tree namespace.new mount.now.number tree.new.items) changes.new.items }
{
    for (path, origin) in content.into_vec() {
        add_entry(namespace, mount, path, origin, tree, changes);
    }
}

// One node of the content: a folder, or a file.
#[tactic(auto, using(crate::proofs::Binds::entry_put, crate::proofs::Brings::none_more))]
fn add_entry(
    namespace: &mut Namespace,
    mount: &Mount,
    path: Path,
    origin: Option<Origin>,
    tree: &mut Vec<(Path, NodeKind)>,
    changes: &mut Vec<Change>,
)
    requires number { mount.now.number < 16 }
    requires ready { IsReady namespace.old ((path, origin) ∷ []) tree.old changes.old }
    ensures next { add_content mount.now (rows_so_far (with_tree namespace.old mount.now.number tree.old.items) changes.old.items) path origin
        ≡ rows_so_far (with_tree namespace.new mount.now.number tree.new.items) changes.new.items }
    ensures live_files { length namespace.new.live_files ≡ 1024 }
    ensures generations { length namespace.new.generations ≡ 1024 }
    ensures trees { namespace.new.trees ≡ namespace.old.trees }
    ensures free { free_count namespace.old ≤ free_count namespace.new + cond (is_some origin) 1 0 }
    ensures tree_len { vec_len tree.new ≤ vec_len tree.old + 1 }
    ensures tree_room { vec_capacity tree.old ≤ vec_capacity tree.new }
    ensures contents { BringsMore changes.old.items changes.new.items (λ roms. entry_contents roms origin) }
    ensures changes_len { vec_len changes.new ≤ vec_len changes.old + 1 }
    ensures changes_room { vec_capacity changes.old ≤ vec_capacity changes.new }
{
    match origin {
        None => put_reserved(tree, path, NodeKind::Dir),
        Some(origin) => bind_content(namespace, mount, path, origin, tree, changes),
    }
}

// A file of the mount is bound to the least free row.
#[tactic(auto, using(crate::proofs::Binds::bound_so, crate::proofs::Binds::free_row_exists, crate::proofs::Binds::one_file, crate::proofs::Brings::one_more, crate::proofs::Binds::one_row_taken))]
fn bind_content(
    namespace: &mut Namespace,
    mount: &Mount,
    path: Path,
    origin: Origin,
    tree: &mut Vec<(Path, NodeKind)>,
    changes: &mut Vec<Change>,
)
    requires number { mount.now.number < 16 }
    requires ready { IsReady namespace.old ((path, Some origin) ∷ []) tree.old changes.old }
    ensures next { bind_content mount.now path origin (rows_so_far (with_tree namespace.old mount.now.number tree.old.items) changes.old.items)
        ≡ rows_so_far (with_tree namespace.new mount.now.number tree.new.items) changes.new.items }
    ensures live_files { length namespace.new.live_files ≡ 1024 }
    ensures generations { length namespace.new.generations ≡ 1024 }
    ensures trees { namespace.new.trees ≡ namespace.old.trees }
    ensures free { free_count namespace.old ≤ free_count namespace.new + 1 }
    ensures tree_len { vec_len tree.new ≤ vec_len tree.old + 1 }
    ensures tree_room { vec_capacity tree.old ≤ vec_capacity tree.new }
    ensures contents { BringsMore changes.old.items changes.new.items (λ roms. entry_contents roms (Some origin)) }
    ensures changes_len { vec_len changes.new ≡ vec_len changes.old + 1 }
    ensures changes_room { vec_capacity changes.new ≡ vec_capacity changes.old }
{
    let Some(row) = least_free_row(namespace) else {
        unreachable!();
    };
    let generation = generation_at(namespace, row) + 1;
    let kind = kind_of(mount.fs);
    let file = file_of(row, generation);
    put_reserved(tree, path, NodeKind::File { file, kind });
    let life = LiveFile {
        kind,
        mount: mount.number,
        backing: origin_backing(&origin),
    };
    bind_row(namespace, row, life);
    changes.push_reserved(Change::Bind {
        row,
        generation,
        origin,
    });
}

// What a file lies on that begins so.
fn origin_backing(origin: &Origin) -> Backing
    ensures { result ≡ origin_backing origin.now }
{
    match origin {
        Origin::Empty => Backing::Memory,
        Origin::Rom { .. } => Backing::Memory,
        Origin::Cell { volume, cell } | Origin::NewCell { volume, cell } => Backing::Cell {
            volume: *volume,
            cell: *cell,
        },
        Origin::Device { device } => Backing::Device { device: *device },
    }
}
