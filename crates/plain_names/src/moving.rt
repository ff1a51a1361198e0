//! Moving a file, or a folder with all below it.

ghost use Rattle.std.specs.Prelude.{◌≡◌, ◌==◌, ◌∷◌, ◌++◌, [], fold, true, IfOk, OnOk, OnErr};
ghost use Rattle.vfs_base.specs.declared.reply.Reply.TheVariants as reply;
ghost use Rattle.vfs_model.specs.Lookup.{covering_mount};
ghost use Rattle.vfs_model.specs.RenameStep.{carried, left_behind, move_refusals, moved, put_entry, rename_refusals, rename_step, with_moved};
ghost use Rattle.plain_nodes.specs.Changes.{brings_nothing, row_changes};
ghost use Rattle.vfs_model.specs.Gives.{Gives};

use crate::naming::free_lost;
use plain_nodes::asking::asked_path;
use plain_nodes::changes::Change;
use plain_nodes::lookup::{
    covering_mount, has_folder_within, has_mount_below, has_nodes, is_file, is_folder, is_point,
    is_read_only, is_there, is_working_directory, node_at, rest_of, tree_of, walk_refusal,
};
use plain_nodes::nodes::set_tree;
use plain_nodes::paths::{joined_path, path_of};
use plain_nodes::trees::{is_below, is_prefix, put_entry, same_path};
use std::alloc::Global;
use vfs_base::{Bytes, Errno, List, Name, NoMemory, NodeKind, Path, SessionId};
use vfs_model::{Namespace, Stop, Tree, refuse_by, refuse_when};

/// Moves a file, or a folder with all below it (POSIX.1-2017, rename). The row of a replaced file is
/// freed unless a reference holds it.
#[tactic(auto, unfolding(vfs_model::specs::RenameStep::rename_at, vfs_model::specs::RenameStep::move_at))]
pub fn rename(
    namespace: &mut Namespace,
    alloc: Global,
    session: SessionId,
    old: &Bytes,
    new: &Bytes,
) -> Result<Option<Change>, Stop>
    ensures told { Gives (λ change. record { reply = reply.Done; next = namespace.new; changes = row_changes change }) result (rename_step namespace.old session old.now new.now) }
    ensures plain { IfOk result (λ change. brings_nothing change ≡ true) }
    ensures err { OnErr result (namespace.new ≡ namespace.old) }
{
    let old = asked_path(namespace, alloc, session, old)?;
    let new = asked_path(namespace, alloc, session, new)?;
    rename_refusals(namespace, old.as_names(), new.as_names())?;
    if same_path(old.as_names(), new.as_names()) {
        return Ok(None);
    }
    move_refusals(namespace, old.as_names(), new.as_names())?;
    let lost = node_at(namespace, new.as_names());
    move_nodes(namespace, alloc, old.as_names(), new.as_names())?;
    Ok(free_lost(namespace, lost))
}

#[tactic(auto, unfolding(vfs_model::specs::RenameStep::rename_refusals))]
fn rename_refusals(namespace: &Namespace, old: &[Name], new: &[Name]) -> Result<(), Errno>
    ensures { result ≡ rename_refusals namespace.now old.now new.now }
{
    let is_busy = is_point(namespace, old) || is_point(namespace, new);
    refuse_when(Errno::EBUSY, is_busy)?;
    refuse_by(walk_refusal(namespace, old))?;
    refuse_when(Errno::ENOENT, !is_there(namespace, old))?;
    refuse_by(walk_refusal(namespace, new))?;
    refuse_when(Errno::EXDEV, !is_in_one_mount(namespace, old, new))?;
    refuse_when(Errno::EROFS, is_read_only(namespace, old))
}

fn is_in_one_mount(namespace: &Namespace, p: &[Name], q: &[Name]) -> bool
    ensures { result ≡ ((covering_mount namespace.now p.now).number == (covering_mount namespace.now q.now).number) }
{
    let number = covering_mount(namespace, p).number.number();
    number == covering_mount(namespace, q).number.number()
}

#[tactic(auto, unfolding(vfs_model::specs::RenameStep::move_refusals))]
fn move_refusals(namespace: &Namespace, old: &[Name], new: &[Name]) -> Result<(), Errno>
    ensures { result ≡ move_refusals namespace.now old.now new.now }
{
    let moves_folder = is_folder(namespace, old);
    refuse_when(Errno::EINVAL, is_below(old, new))?;
    refuse_when(Errno::ENOTDIR, moves_folder && is_file(namespace, new))?;
    refuse_when(
        Errno::EISDIR,
        is_file(namespace, old) && is_folder(namespace, new),
    )?;
    refuse_when(
        Errno::ENOTEMPTY,
        is_folder(namespace, new) && has_nodes(namespace, new),
    )?;
    refuse_when(
        Errno::EBUSY,
        moves_folder && has_folder_within(namespace, old),
    )?;
    refuse_when(
        Errno::EBUSY,
        moves_folder && has_mount_below(namespace, old),
    )?;
    refuse_when(Errno::EBUSY, is_working_directory(namespace, new))
}

#[tactic(auto, unfolding(vfs_model::specs::RenameStep::with_moved))]
fn move_nodes(
    namespace: &mut Namespace,
    alloc: Global,
    old: &[Name],
    new: &[Name],
) -> Result<(), NoMemory>
    ensures ok { OnOk result (namespace.new ≡ with_moved namespace.old old.now new.now) }
    ensures err { OnErr result (namespace.new ≡ namespace.old) }
{
    let number = covering_mount(namespace, old).number;
    let old = rest_of(namespace, old);
    let new = rest_of(namespace, new);
    let tree = moved(alloc, old, new, tree_of(namespace, number))?;
    set_tree(namespace, number, tree);
    Ok(())
}

// The tree in which old with all below it stands at new.
#[tactic(auto, using(crate::proofs::Moves::carried_on), unfolding(vfs_model::specs::RenameStep::moved))]
fn moved(
    alloc: Global,
    old: &[Name],
    new: &[Name],
    tree: &[(Path, NodeKind)],
) -> Result<Tree, NoMemory>
    ensures { IfOk result (λ next. next ≡ moved old.now new.now tree.now) }
{
    let mut next = left_behind(alloc, old, new, tree)?;
    for entry in tree {
        put_carried(&mut next, alloc, old, new, entry)?;
    }
    Ok(next)
}

// Puts the node to its new path, if it is at or below the old one.
fn put_carried(
    next: &mut Tree,
    alloc: Global,
    old: &[Name],
    new: &[Name],
    entry: &(Path, NodeKind),
) -> Result<(), NoMemory>
    ensures { OnOk result (next.new ≡ fold put_entry next.old (carried old.now new.now (entry.now ∷ []))) }
{
    let names = entry.0.as_names();
    if !is_prefix(old, names) {
        return Ok(());
    }
    let below = names.get(old.len()..).unwrap_or(&[]);
    put_entry(next, joined_path(alloc, new, below)?, entry.1)
}

// The nodes that stay where they are.
#[tactic(auto, using(crate::proofs::Filters::filtered_on))]
fn left_behind(
    alloc: Global,
    old: &[Name],
    new: &[Name],
    tree: &[(Path, NodeKind)],
) -> Result<Tree, NoMemory>
    ensures { IfOk result (λ left. left ≡ left_behind old.now new.now tree.now) }
{
    let mut left = List::new(alloc);
    for entry in tree {
        push_left(&mut left, alloc, old, new, entry)?;
    }
    Ok(left)
}

fn push_left(
    left: &mut Tree,
    alloc: Global,
    old: &[Name],
    new: &[Name],
    entry: &(Path, NodeKind),
) -> Result<(), NoMemory>
    ensures { OnOk result (left.new ≡ left.old ++ left_behind old.now new.now (entry.now ∷ [])) }
{
    let names = entry.0.as_names();
    if is_prefix(old, names) || same_path(names, new) {
        return Ok(());
    }
    left.push((path_of(alloc, names)?, entry.1))
}
