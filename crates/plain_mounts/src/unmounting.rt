//! Unmounting: what keeps a mount, and how its names, rows and nodes go.

ghost use Rattle.std.specs.Prelude.{◌≡◌, true, ◌==◌, ◌||◌, ◌+◌, ◌≤◌, [], is_ok, map, find, fold, length, reverse, vec_len, vec_capacity, IfOk, OnErr};
ghost use Rattle.std.specs.List.{list_all, list_any};
ghost use Rattle.std.specs.Option.{option_copied};
ghost use Rattle.vfs_base.specs.Path.{AllAre};
ghost use Rattle.vfs_base.specs.declared.reply.Reply.TheVariants as reply;
ghost use Rattle.vfs_model.specs.Lookup.{covering_mount, has_mount_below};
ghost use Rattle.vfs_model.specs.Namespace.{same_path};
ghost use Rattle.vfs_model.specs.UmountSteps.{is_busy, mount_at_point, refers_to_mount, remove_all, remove_mount, umount_step};
ghost use Rattle.plain_nodes.specs.Changes.{brings_no_bytes, row_change};
ghost use Rattle.vfs_model.specs.Gives.{Gives};
ghost use Rattle.plain_mounts.specs.Leaving.{live_count, rows_so_far, TreesShrink};
ghost use Rattle.vfs_model.specs.Sizes.{IsSized};
ghost use Rattle.plain_mounts.specs.Unmounting.{HasRoom, umount_refusals};

use crate::leaving::{Leaving, empty_mount, make_leaving, remove_mount};
use crate::resting::come_to_rest;
use plain_nodes::asking::asked_path;
use plain_nodes::changes::Change;
use plain_nodes::lookup::{covering_mount, has_mount_below};
use plain_nodes::trees::same_path;
use std::alloc::Global;
use vfs_base::{Bytes, Errno, List, MountId, Name, NoMemory, SessionId};
use vfs_model::{Mount, Namespace, Reference, Stop, refuse_when};

/// Whether another mount lies below the mount, a reference names it, or a session's working
/// directory lies in it.
#[tactic(auto, unfolding(vfs_model::specs::UmountSteps::is_busy))]
pub fn is_busy(namespace: &Namespace, mount: &Mount) -> bool
    ensures { result ≡ is_busy namespace.now mount.now }
{
    has_mount_below(namespace, mount.point.as_names())
        || is_referred_to(namespace.references.as_slice(), mount.number)
        || has_folder_in(namespace, mount.number)
}

fn is_referred_to(references: &[Option<Reference>], number: MountId) -> bool
    ensures { result ≡ list_any (refers_to_mount number) references.now }
{
    references
        .iter()
        .any(|reference| refers_to_mount(number, reference))
}

fn refers_to_mount(number: MountId, reference: &Option<Reference>) -> bool
    ensures { result ≡ refers_to_mount number reference.now }
{
    match reference {
        None => false,
        Some(reference) => reference.mount.number() == number.number(),
    }
}

fn has_folder_in(namespace: &Namespace, number: MountId) -> bool
    ensures { result ≡ list_any (λ folder. (covering_mount namespace.now folder).number == number) namespace.now.working_directories }
{
    let working_directories = namespace.working_directories.as_slice();
    working_directories.iter().any(|folder| covering_mount(namespace, folder.as_names())
        .number
        .number()
        == number.number())
}

/// The mount with this point.
pub fn mount_at_point<'a>(namespace: &'a Namespace, path: &[Name]) -> Option<&'a Mount>
    ensures { option_copied result ≡ mount_at_point namespace.now path.now }
{
    if same_path(namespace.root.point.as_names(), path) {
        return Some(&namespace.root);
    }
    find_mount(namespace.mounts.as_slice(), path)
}

fn find_mount<'a>(mounts: &'a [Mount], path: &[Name]) -> Option<&'a Mount>
    ensures { option_copied result ≡ find (λ mount. same_path mount.point path.now) mounts.now }
{
    for mount in mounts {
        if same_path(mount.point.as_names(), path) {
            return Some(mount);
        }
    }
    None
}

/// Unmounts the file system with this point. Its files are freed, by row.
pub fn umount(
    namespace: &mut Namespace,
    alloc: Global,
    session: SessionId,
    point: &Bytes,
) -> Result<List<Change>, Stop>
    requires { IsSized namespace.old }
    ensures told { Gives (λ changes. record { reply = reply.Done; next = namespace.new; changes = map row_change changes }) result (umount_step namespace.old session point.now) }
    ensures plain { IfOk result (λ changes. list_all brings_no_bytes changes ≡ true) }
    ensures err { OnErr result (namespace.new ≡ namespace.old) }
{
    unmount_point(namespace, alloc, session, point)
}

#[tactic(auto, using(crate::proofs::Unmounts::umount_goes, crate::proofs::Unmounts::umount_stops))]
fn unmount_point(
    namespace: &mut Namespace,
    alloc: Global,
    session: SessionId,
    point: &Bytes,
) -> Result<List<Change>, Stop>
    requires { length namespace.old.live_files ≡ 1024 }
    ensures told { Gives (λ changes. record { reply = reply.Done; next = namespace.new; changes = map row_change changes }) result (umount_step namespace.old session point.now) }
    ensures err { OnErr result (namespace.new ≡ namespace.old) }
{
    let Leaving { mount, room } = leaving_mount(namespace, alloc, session, point)?;
    let mut changes = room_for_changes(namespace, alloc)?;
    remove_mount(namespace, &mount, room, &mut changes);
    Ok(List::from_vec(changes))
}

/// Whether the unmount is not refused.
#[tactic(auto, using(crate::proofs::Unmounts::may_go, crate::proofs::Unmounts::may_not_go))]
pub fn may_umount(
    namespace: &Namespace,
    alloc: Global,
    session: SessionId,
    point: &Bytes,
) -> Result<bool, NoMemory>
    ensures { IfOk result (λ may. may ≡ is_ok (umount_step namespace.now session point.now)) }
{
    match umount_refusals(namespace, alloc, session, point) {
        Ok(_) => Ok(true),
        Err(Stop::Refusal(_)) => Ok(false),
        Err(Stop::NoMemory) => Err(NoMemory),
    }
}

// The mount that leaves, unless the unmount is refused.
fn umount_refusals<'a>(
    namespace: &'a Namespace,
    alloc: Global,
    session: SessionId,
    point: &Bytes,
) -> Result<&'a Mount, Stop>
    ensures { Gives (λ mount. mount.now) result (umount_refusals namespace.now session point.now) }
{
    let path = asked_path(namespace, alloc, session, point)?;
    let Some(mount) = mount_at_point(namespace, path.as_names()) else {
        return Err(Stop::Refusal(Errno::EINVAL));
    };
    refuse_when(Errno::EBUSY, is_busy(namespace, mount))?;
    Ok(mount)
}

fn leaving_mount(
    namespace: &Namespace,
    alloc: Global,
    session: SessionId,
    point: &Bytes,
) -> Result<Leaving, Stop>
    ensures told { Gives (λ leaving. leaving.mount) result (umount_refusals namespace.now session point.now) }
    ensures room { IfOk result (HasRoom namespace.now) }
{
    let mount = umount_refusals(namespace, alloc, session, point)?;
    Ok(make_leaving(namespace, alloc, mount)?)
}

/// Nothing is in use any more; then all mounts but `/` go in reverse order, and `/` loses all its nodes.
pub fn unmount_all(namespace: &mut Namespace, alloc: Global) -> Result<List<Change>, NoMemory>
    requires { IsSized namespace.old }
    ensures ok { IfOk result (λ changes. remove_all namespace.old
        ≡ record { next = namespace.new; changes = map row_change changes }) }
    ensures plain { IfOk result (λ changes. list_all brings_no_bytes changes ≡ true) }
    ensures err { OnErr result (namespace.new ≡ namespace.old) }
{
    unmount_each(namespace, alloc)
}

#[tactic(auto, using(crate::proofs::Unmounts::room_stays), unfolding(vfs_model::specs::UmountSteps::remove_all))]
fn unmount_each(namespace: &mut Namespace, alloc: Global) -> Result<List<Change>, NoMemory>
    requires { length namespace.old.live_files ≡ 1024 }
    ensures ok { IfOk result (λ changes. remove_all namespace.old
        ≡ record { next = namespace.new; changes = map row_change changes }) }
    ensures err { OnErr result (namespace.new ≡ namespace.old) }
{
    let leaving = make_all_leaving(namespace, alloc)?;
    let Leaving { mount, room } = make_leaving(namespace, alloc, &namespace.root)?;
    let mut changes = room_for_changes(namespace, alloc)?;
    come_to_rest(namespace, &mut changes);
    remove_mounts(namespace, leaving, &mut changes);
    empty_mount(namespace, &mount, room, &mut changes);
    Ok(List::from_vec(changes))
}

// The mounts but `/`, with room for the names of their trees.
#[tactic(auto, using(crate::proofs::Unmounts::one_has_room_more))]
fn make_all_leaving(namespace: &Namespace, alloc: Global) -> Result<Vec<Leaving>, NoMemory>
    ensures mounts { IfOk result (λ leaving. map (λ one. one.mount) leaving.items ≡ namespace.now.mounts) }
    ensures room { IfOk result (λ leaving. AllAre (HasRoom namespace.now) leaving.items) }
{
    let mut leaving = Vec::new(alloc);
    for mount in namespace.mounts.as_slice() {
        leaving.push(make_leaving(namespace, alloc, mount)?)?;
    }
    Ok(leaving)
}

// The mounts go, the last one first.
#[tactic(auto, using(crate::proofs::Unmounts::last_has_room, crate::proofs::Unmounts::room_stays, crate::proofs::Unmounts::last_goes_first))]
fn remove_mounts(namespace: &mut Namespace, mut leaving: Vec<Leaving>, changes: &mut Vec<Change>)
    requires live_files { length namespace.old.live_files ≡ 1024 }
    requires names { AllAre (HasRoom namespace.old) leaving.items }
    requires room { vec_len changes.old + live_count namespace.old ≤ vec_capacity changes.old }
    ensures next { fold remove_mount (rows_so_far namespace.old changes.old.items) (reverse (map (λ one. one.mount) leaving.items))
        ≡ rows_so_far namespace.new changes.new.items }
    ensures live_files { length namespace.new.live_files ≡ 1024 }
    ensures trees { TreesShrink namespace.old namespace.new }
    ensures room { vec_len changes.new + live_count namespace.new ≤ vec_capacity changes.new }
{
    while let Some(Leaving { mount, room }) = leaving.pop() {
        remove_mount(namespace, &mount, room, changes);
    }
}

// No changes yet, and room for one of each row that has a file.
fn room_for_changes(namespace: &Namespace, alloc: Global) -> Result<Vec<Change>, NoMemory>
    ensures empty { IfOk result (λ changes. changes.items ≡ []) }
    ensures room { IfOk result (λ changes.
        vec_len changes + live_count namespace.now ≤ vec_capacity changes) }
{
    Ok(Vec::with_capacity(alloc, live_count(namespace))?)
}

// How many rows have a file.
fn live_count(namespace: &Namespace) -> usize
    ensures { result ≡ live_count namespace.now }
{
    let live_files = namespace.live_files.as_slice();
    live_files.iter().filter(|life| life.is_some()).count()
}
