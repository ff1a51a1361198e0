//! What is in a folder, and the working directories of sessions.

ghost use Rattle.std.specs.Prelude.{◌≡◌, ◌∷◌, ◌++◌, [], Ok, OnOk, OnErr, IfOk, slice_set};
ghost use Rattle.vfs_base.specs.declared.reply.Reply.TheVariants as reply;
ghost use Rattle.vfs_model.specs.NameSteps.{chdir_step, cwd_step, entries_at, folder_refusals, home_step, is_entry_of, list_step};
ghost use Rattle.vfs_model.specs.Namespace.{with_folder_of};
ghost use Rattle.vfs_model.specs.Gives.{Gives};
ghost use Rattle.plain_names.specs.Listing.{entries_in};

use plain_nodes::asking::asked_path;
use plain_nodes::lookup::{covering_mount, is_file, is_there, rest_of, tree_of, walk_refusal};
use plain_nodes::trees::is_below;
use std::alloc::Global;
use vfs_base::{Bytes, Errno, List, ListEntry, Name, NoMemory, NodeKind, Path, SessionId};
use vfs_model::{Namespace, Stop, refuse_by, refuse_when};

/// The folder's path, and what is in it, in byte order of the names.
pub fn list(
    namespace: &Namespace,
    alloc: Global,
    session: SessionId,
    path: &Bytes,
) -> Result<(Path, List<ListEntry>), Stop>
    ensures { Gives (λ listing. record { reply = reply.Listing listing.0 listing.1; next = namespace.now; changes = [] }) result (list_step namespace.now session path.now) }
{
    let path = asked_path(namespace, alloc, session, path)?;
    folder_refusals(namespace, path.as_names())?;
    let entries = entries_at(namespace, alloc, path.as_names())?;
    Ok((path, entries))
}

#[tactic(auto, unfolding(vfs_model::specs::NameSteps::folder_refusals))]
fn folder_refusals(namespace: &Namespace, path: &[Name]) -> Result<(), Errno>
    ensures { result ≡ folder_refusals namespace.now path.now }
{
    refuse_by(walk_refusal(namespace, path))?;
    refuse_when(Errno::ENOENT, !is_there(namespace, path))?;
    refuse_when(Errno::ENOTDIR, is_file(namespace, path))
}

fn entries_at(
    namespace: &Namespace,
    alloc: Global,
    path: &[Name],
) -> Result<List<ListEntry>, NoMemory>
    ensures { IfOk result (λ entries. entries ≡ entries_at namespace.now path.now) }
{
    let mount = covering_mount(namespace, path);
    entries_in(
        alloc,
        rest_of(namespace, path),
        tree_of(namespace, mount.number),
    )
}

#[tactic(auto, using(crate::proofs::Filters::picked_on))]
fn entries_in(
    alloc: Global,
    folder: &[Name],
    tree: &[(Path, NodeKind)],
) -> Result<List<ListEntry>, NoMemory>
    ensures { IfOk result (λ entries. entries ≡ entries_in folder.now tree.now) }
{
    let mut out = List::new(alloc);
    for entry in tree {
        push_entry(&mut out, folder, entry)?;
    }
    Ok(out)
}

fn push_entry(
    out: &mut List<ListEntry>,
    folder: &[Name],
    entry: &(Path, NodeKind),
) -> Result<(), NoMemory>
    ensures { OnOk result (out.new ≡ out.old ++ entries_in folder.now (entry.now ∷ [])) }
{
    let names = entry.0.as_names();
    if !is_entry_of(folder, names) {
        return Ok(());
    }
    let name = names[names.len() - 1].copy()?;
    out.push(ListEntry {
        name,
        node: entry.1,
    })
}

fn is_entry_of(folder: &[Name], path: &[Name]) -> bool
    ensures { result ≡ is_entry_of folder.now path.now }
{
    is_below(folder, path) && path.len() - 1 == folder.len()
}

/// Makes the folder at the path the session's working directory (POSIX.1-2017, chdir), and answers
/// its path.
pub fn chdir(
    namespace: &mut Namespace,
    alloc: Global,
    session: SessionId,
    path: &Bytes,
) -> Result<Path, Stop>
    ensures told { Gives (λ at. record { reply = reply.At at; next = namespace.new; changes = [] }) result (chdir_step namespace.old session path.now) }
    ensures err { OnErr result (namespace.new ≡ namespace.old) }
{
    let path = asked_path(namespace, alloc, session, path)?;
    folder_refusals(namespace, path.as_names())?;
    let shown = path.copy()?;
    set_folder(namespace, session, path);
    Ok(shown)
}

/// Makes `/` the session's working directory.
pub fn home(namespace: &mut Namespace, session: SessionId)
    ensures told { home_step namespace.old session
        ≡ Ok (record { reply = reply.Done; next = namespace.new; changes = [] }) }
{
    clear_folder(&mut namespace.working_directories, session.place());
}

fn clear_folder(working_directories: &mut List<Path>, place: usize)
    ensures { working_directories.new ≡ slice_set working_directories.old place [] }
{
    let folders = working_directories.as_mut_slice();
    if place < folders.len() {
        folders[place].clear();
    }
}

fn set_folder(namespace: &mut Namespace, session: SessionId, path: Path)
    ensures next { namespace.new ≡ with_folder_of namespace.old session path }
{
    let place = session.place();
    namespace.working_directories.set(place, path);
}

/// The session's working directory (POSIX.1-2017, getcwd).
pub fn cwd(namespace: &Namespace, alloc: Global, session: SessionId) -> Result<Path, NoMemory>
    ensures told { IfOk result (λ at. cwd_step namespace.now session
        ≡ Ok (record { reply = reply.At at; next = namespace.now; changes = [] })) }
{
    let place = session.place();
    match namespace.working_directories.as_slice().get(place) {
        Some(folder) => folder.copy(),
        None => Ok(Path::root(alloc)),
    }
}
