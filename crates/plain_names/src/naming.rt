//! Making and removing names, and looking at them.

ghost use Rattle.std.specs.Prelude.{◌≡◌, [], false, true, IfOk, OnOk, OnErr};
ghost use Rattle.vfs_base.specs.declared.kinds.NodeKind.TheVariants as node;
ghost use Rattle.vfs_base.specs.declared.reply.Reply.TheVariants as reply;
ghost use Rattle.vfs_model.specs.Lookup.{is_full};
ghost use Rattle.vfs_model.specs.NameSteps.{after_loss, mkdir_refusals, mkdir_step, rmdir_refusals, rmdir_step, stat_step, unlink_refusals, unlink_step};
ghost use Rattle.plain_nodes.specs.Changes.{brings_nothing, row_changes};
ghost use Rattle.vfs_model.specs.Gives.{Gives};

use plain_nodes::asking::asked_path;
use plain_nodes::changes::Change;
use plain_nodes::lookup::{
    has_nodes, is_file, is_folder, is_full, is_point, is_read_only, is_there, is_working_directory,
    node_at, walk_refusal,
};
use plain_nodes::nodes::{put_node, remove_node};
use plain_nodes::rows::free_if_unused;
use std::alloc::Global;
use vfs_base::{Bytes, Errno, Name, NodeKind, SessionId};
use vfs_model::{Namespace, Stop, refuse_by, refuse_when};

/// What stands at the path (POSIX.1-2017, stat).
pub fn stat(
    namespace: &Namespace,
    alloc: Global,
    session: SessionId,
    path: &Bytes,
) -> Result<NodeKind, Stop>
    ensures { Gives (λ there. record { reply = reply.Node there; next = namespace.now; changes = [] }) result (stat_step namespace.now session path.now) }
{
    let path = asked_path(namespace, alloc, session, path)?;
    refuse_by(walk_refusal(namespace, path.as_names()))?;
    node_at(namespace, path.as_names()).ok_or(Stop::Refusal(Errno::ENOENT))
}

/// Makes a folder at the path (POSIX.1-2017, mkdir).
pub fn mkdir(
    namespace: &mut Namespace,
    alloc: Global,
    session: SessionId,
    path: &Bytes,
) -> Result<(), Stop>
    ensures told { Gives (λ _. record { reply = reply.Done; next = namespace.new; changes = [] }) result (mkdir_step namespace.old session path.now) }
    ensures err { OnErr result (namespace.new ≡ namespace.old) }
{
    let path = asked_path(namespace, alloc, session, path)?;
    mkdir_refusals(namespace, path.as_names())?;
    put_node(namespace, alloc, path.as_names(), NodeKind::Dir)?;
    Ok(())
}

#[tactic(auto, unfolding(vfs_model::specs::NameSteps::mkdir_refusals))]
fn mkdir_refusals(namespace: &Namespace, path: &[Name]) -> Result<(), Errno>
    ensures value { result ≡ mkdir_refusals namespace.now path.now }
    ensures room { OnOk result (is_full namespace.now path.now ≡ false) }
{
    refuse_by(walk_refusal(namespace, path))?;
    refuse_when(Errno::EEXIST, is_there(namespace, path))?;
    refuse_when(Errno::EROFS, is_read_only(namespace, path))?;
    refuse_when(Errno::ENOSPC, is_full(namespace, path))
}

/// Removes the empty folder at the path (POSIX.1-2017, rmdir).
pub fn rmdir(
    namespace: &mut Namespace,
    alloc: Global,
    session: SessionId,
    path: &Bytes,
) -> Result<(), Stop>
    ensures told { Gives (λ _. record { reply = reply.Done; next = namespace.new; changes = [] }) result (rmdir_step namespace.old session path.now) }
    ensures err { OnErr result (namespace.new ≡ namespace.old) }
{
    let path = asked_path(namespace, alloc, session, path)?;
    rmdir_refusals(namespace, path.as_names())?;
    remove_node(namespace, path.as_names());
    Ok(())
}

#[tactic(auto, unfolding(vfs_model::specs::NameSteps::rmdir_refusals))]
fn rmdir_refusals(namespace: &Namespace, path: &[Name]) -> Result<(), Errno>
    ensures { result ≡ rmdir_refusals namespace.now path.now }
{
    refuse_when(Errno::EBUSY, is_point(namespace, path))?;
    refuse_by(walk_refusal(namespace, path))?;
    refuse_when(Errno::ENOENT, !is_there(namespace, path))?;
    refuse_when(Errno::ENOTDIR, is_file(namespace, path))?;
    refuse_when(Errno::EROFS, is_read_only(namespace, path))?;
    refuse_when(Errno::ENOTEMPTY, has_nodes(namespace, path))?;
    refuse_when(Errno::EBUSY, is_working_directory(namespace, path))
}

/// Removes the name of the file at the path (POSIX.1-2017, unlink). Its row is freed unless a
/// reference holds it.
pub fn unlink(
    namespace: &mut Namespace,
    alloc: Global,
    session: SessionId,
    path: &Bytes,
) -> Result<Option<Change>, Stop>
    ensures told { Gives (λ change. record { reply = reply.Done; next = namespace.new; changes = row_changes change }) result (unlink_step namespace.old session path.now) }
    ensures plain { IfOk result (λ change. brings_nothing change ≡ true) }
    ensures err { OnErr result (namespace.new ≡ namespace.old) }
{
    let path = asked_path(namespace, alloc, session, path)?;
    unlink_refusals(namespace, path.as_names())?;
    let node = node_at(namespace, path.as_names());
    remove_node(namespace, path.as_names());
    Ok(free_lost(namespace, node))
}

#[tactic(auto, unfolding(vfs_model::specs::NameSteps::unlink_refusals))]
fn unlink_refusals(namespace: &Namespace, path: &[Name]) -> Result<(), Errno>
    ensures { result ≡ unlink_refusals namespace.now path.now }
{
    refuse_by(walk_refusal(namespace, path))?;
    refuse_when(Errno::ENOENT, !is_there(namespace, path))?;
    refuse_when(Errno::EPERM, is_folder(namespace, path))?;
    refuse_when(Errno::EROFS, is_read_only(namespace, path))
}

/// Frees the row of a file that has lost its place, unless the file is linked or held.
pub fn free_lost(namespace: &mut Namespace, node: Option<NodeKind>) -> Option<Change>
    ensures next { after_loss namespace.old node
        ≡ record { next = namespace.new; changes = row_changes result } }
    ensures plain { brings_nothing result ≡ true }
{
    match node {
        Some(NodeKind::File { file, .. }) => free_if_unused(namespace, file.row),
        Some(NodeKind::Dir) => None,
        None => None,
    }
}
