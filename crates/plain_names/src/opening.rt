//! Opening files, and making them.

ghost use Rattle.std.specs.Prelude.{◌≡◌, true, ◌<◌, ◌∷◌, ◌&&◌, ◌||◌, [], Some, not, false, IfOk, OnOk, OnErr};
ghost use Rattle.std.specs.List.{position_or_len};
ghost use Rattle.vfs_model.specs.FileLife.{volume_at, volume_named};
ghost use Rattle.vfs_model.specs.Lookup.{covering_mount, is_file, is_read_only, is_there, node_at};
ghost use Rattle.vfs_model.specs.Namespace.{with_reference};
ghost use Rattle.vfs_model.specs.OpenStep.{creates, least_free_number, open_at, for_reading, for_writing, has_no_room, is_exclusive, is_rom_node, is_without_cell, kind_of, least_spare_cell, make_file, new_backing, new_life, new_origin, open_refusals, open_step, truncates, with_file_at};
ghost use Rattle.plain_nodes.specs.Changes.{brings_no_bytes, brings_nothing, is_no_rom, row_change, row_changes};
ghost use Rattle.vfs_model.specs.Gives.{Gives};
ghost use Rattle.vfs_model.specs.Sizes.{IsSized};

use crate::references::{least_free_number, set_reference};
use bitflags::Flags;
use plain_nodes::asking::asked_path;
use plain_nodes::changes::Change;
use plain_nodes::lookup::{
    covering_mount, is_file, is_folder, is_full, is_read_only, is_there, node_at, walk_refusal,
};
use plain_nodes::nodes::put_node;
use plain_nodes::rows::{bind_row, file_of, generation_at, least_free_row};
use plain_nodes::sources::{kind_of, volume_named};
use std::alloc::Global;
use vfs_base::{
    Bytes, Errno, FileId, FsType, HOLDS, HoldId, Kind, Name, NoMemory, NodeKind, OpenFlags, Reply,
    SessionId,
};
use vfs_model::{
    Backing, LiveFile, Mount, Namespace, Origin, Reference, Role, Stop, refuse_by, refuse_when,
};

/// Opens the file at the path (POSIX.1-2017, open). Where nothing stands there, it is made if the
/// flags ask for that.
pub fn open(
    namespace: &mut Namespace,
    alloc: Global,
    session: SessionId,
    path: &Bytes,
    flags: OpenFlags,
) -> Result<(Reply, Option<Change>), Stop>
    requires sized { IsSized namespace.old }
    ensures told { Gives (λ opened. record { reply = opened.0; next = namespace.new; changes = row_changes opened.1 }) result (open_step namespace.old session path.now flags) }
    ensures plain { IfOk result (λ opened. brings_nothing opened.1 ≡ true) }
    ensures err { OnErr result (namespace.new ≡ namespace.old) }
{
    let path = asked_path(namespace, alloc, session, path)?;
    open_at(namespace, alloc, session, path.as_names(), flags)
}

#[tactic(auto, unfolding(vfs_model::specs::OpenStep::open_at))]
fn open_at(
    namespace: &mut Namespace,
    alloc: Global,
    session: SessionId,
    path: &[Name],
    flags: OpenFlags,
) -> Result<(Reply, Option<Change>), Stop>
    requires sized { IsSized namespace.old }
    ensures told { Gives (λ opened. record { reply = opened.0; next = namespace.new; changes = row_changes opened.1 }) result (open_at namespace.old session path.now flags) }
    ensures plain { IfOk result (λ opened. brings_nothing opened.1 ≡ true) }
    ensures err { OnErr result (namespace.new ≡ namespace.old) }
{
    open_refusals(namespace, session, path, flags)?;
    let change = make_missing(namespace, alloc, path)?;
    match node_at(namespace, path) {
        Some(NodeKind::File { file, kind }) => {
            let hold = refer_to(namespace, session, path, &file, kind);
            Ok((Reply::Opened { hold, file, kind }, change))
        }
        Some(NodeKind::Dir) => Err(Stop::Refusal(Errno::EISDIR)),
        None => Err(Stop::Refusal(Errno::ENOENT)),
    }
}

#[tactic(auto, unfolding(vfs_model::specs::OpenStep::open_refusals))]
fn open_refusals(
    namespace: &Namespace,
    session: SessionId,
    path: &[Name],
    flags: OpenFlags,
) -> Result<(), Errno>
    requires { IsSized namespace.now }
    ensures value { result ≡ open_refusals namespace.now session path.now flags }
    ensures room { OnOk result ((not (is_there namespace.now path.now) && has_no_room namespace.now path.now) ≡ false) }
{
    let is_new = !is_there(namespace, path);
    refuse_when(Errno::EINVAL, has_bad_flags(flags))?;
    refuse_by(walk_refusal(namespace, path))?;
    refuse_when(Errno::EISDIR, is_folder(namespace, path))?;
    refuse_when(
        Errno::EEXIST,
        is_file(namespace, path) && is_new_only(flags),
    )?;
    refuse_when(Errno::ENOENT, is_new && !flags.contains(OpenFlags::CREAT))?;
    refuse_when(Errno::EROFS, writes_read_only(namespace, path, flags))?;
    let number = least_free_number(namespace, session);
    refuse_when(Errno::EMFILE, HOLDS < number as usize)?;
    refuse_when(Errno::ENOSPC, is_new && has_no_room(namespace, path))
}

// Whether the file is opened neither for reading nor for writing, or cut without writing.
fn has_bad_flags(flags: OpenFlags) -> bool
    ensures { result ≡ (not (for_reading flags || for_writing flags) || (truncates flags && not (for_writing flags))) }
{
    let writes = flags.contains(OpenFlags::WRITE);
    !(flags.contains(OpenFlags::READ) || writes) || (flags.contains(OpenFlags::TRUNC) && !writes)
}

fn is_new_only(flags: OpenFlags) -> bool
    ensures { result ≡ (creates flags && is_exclusive flags) }
{
    flags.contains(OpenFlags::CREAT) && flags.contains(OpenFlags::EXCL)
}

// Whether a file would be made in a read-only mount, or a rom's file opened for writing.
fn writes_read_only(namespace: &Namespace, path: &[Name], flags: OpenFlags) -> bool
    ensures { result ≡ ((not (is_there namespace.now path.now) && is_read_only namespace.now path.now) || (is_rom_node (node_at namespace.now path.now) && for_writing flags)) }
{
    (!is_there(namespace, path) && is_read_only(namespace, path))
        || (is_rom_node(node_at(namespace, path)) && flags.contains(OpenFlags::WRITE))
}

fn is_rom_node(node: Option<NodeKind>) -> bool
    ensures { result ≡ is_rom_node node }
{
    match node {
        Some(NodeKind::File { kind, .. }) => matches!(kind, Kind::Rom),
        Some(NodeKind::Dir) => false,
        None => false,
    }
}

// Whether a file can't be made at the path for want of a node, a row or a cell.
fn has_no_room(namespace: &Namespace, path: &[Name]) -> bool
    requires { IsSized namespace.now }
    ensures { result ≡ has_no_room namespace.now path.now }
{
    is_full(namespace, path)
        || least_free_row(namespace).is_none()
        || is_without_cell(namespace, covering_mount(namespace, path))
}

fn is_without_cell(namespace: &Namespace, mount: &Mount) -> bool
    ensures { result ≡ is_without_cell namespace.now mount.now mount.now.fs }
{
    match mount.fs {
        FsType::Cell => spare_of(namespace, mount).len() <= least_spare_cell(namespace, mount),
        FsType::Tmp => false,
        FsType::Rom => false,
        FsType::Dev => false,
    }
}

// For each cell of the mount's volume, whether it is spare.
fn spare_of<'a>(namespace: &'a Namespace, mount: &Mount) -> &'a [bool]
    ensures { result.now
        ≡ (volume_at namespace.now (volume_named namespace.now mount.now.source)).spare }
{
    let volume = volume_named(namespace, mount.source.as_slice());
    match namespace.volumes.as_slice().get(volume) {
        Some(volume) => volume.spare.as_slice(),
        None => &[],
    }
}

fn least_spare_cell(namespace: &Namespace, mount: &Mount) -> usize
    ensures { result ≡ least_spare_cell namespace.now mount.now }
{
    first_true(spare_of(namespace, mount))
}

fn first_true(tests: &[bool]) -> usize
    ensures { result ≡ position_or_len (λ test. test) tests.now }
{
    let mut place = 0;
    for test in tests {
        if *test {
            return place;
        }
        place += 1;
    }
    place
}

// Makes a file at the path where nothing stands there.
#[tactic(auto, using(crate::proofs::Made::made_is_file))]
fn make_missing(
    namespace: &mut Namespace,
    alloc: Global,
    path: &[Name],
) -> Result<Option<Change>, NoMemory>
    requires sized { IsSized namespace.old }
    requires room { (not (is_there namespace.old path.now) && has_no_room namespace.old path.now) ≡ false }
    ensures ok { IfOk result (λ change. with_file_at namespace.old path.now
        ≡ record { next = namespace.new; changes = row_changes change }) }
    ensures plain { IfOk result (λ change. brings_nothing change ≡ true) }
    ensures kept { OnOk result (is_file namespace.new path.now ≡ false → namespace.new ≡ namespace.old) }
    ensures err { OnErr result (namespace.new ≡ namespace.old) }
{
    if is_there(namespace, path) {
        return Ok(None);
    }
    Ok(Some(make_file(namespace, alloc, path)?))
}

#[tactic(auto, unfolding(vfs_model::specs::OpenStep::make_file, vfs_model::specs::Lookup::with_node))]
fn make_file(namespace: &mut Namespace, alloc: Global, path: &[Name]) -> Result<Change, NoMemory>
    requires sized { IsSized namespace.old }
    requires room { has_no_room namespace.old path.now ≡ false }
    ensures ok { IfOk result (λ change. make_file namespace.old path.now
        ≡ record { next = namespace.new; changes = row_change change ∷ [] }) }
    ensures plain { IfOk result (λ change. brings_no_bytes change ≡ true) }
    ensures number { OnOk result ((covering_mount namespace.old path.now).number < 16) }
    ensures err { OnErr result (namespace.new ≡ namespace.old) }
{
    let Some(row) = least_free_row(namespace) else {
        unreachable!();
    };
    let life = new_life(namespace, path);
    let kind = life.kind;
    let origin = new_origin(&life.backing);
    let generation = generation_at(namespace, row) + 1;
    let file = file_of(row, generation);
    put_node(namespace, alloc, path, NodeKind::File { file, kind })?;
    bind_row(namespace, row, life);
    Ok(Change::Bind {
        row,
        generation,
        origin,
    })
}

// The live file that is made at a path.
fn new_life(namespace: &Namespace, path: &[Name]) -> LiveFile
    ensures { result ≡ new_life namespace.now path.now }
{
    let mount = covering_mount(namespace, path);
    LiveFile {
        kind: kind_of(mount.fs),
        mount: mount.number,
        backing: new_backing(namespace, mount),
    }
}

fn new_backing(namespace: &Namespace, mount: &Mount) -> Backing
    ensures { result ≡ new_backing namespace.now mount.now mount.now.fs }
{
    match mount.fs {
        FsType::Cell => Backing::Cell {
            volume: volume_named(namespace, mount.source.as_slice()),
            cell: least_spare_cell(namespace, mount),
        },
        FsType::Tmp => Backing::Memory,
        FsType::Rom => Backing::Memory,
        FsType::Dev => Backing::Memory,
    }
}

fn new_origin(backing: &Backing) -> Origin
    ensures value { result ≡ new_origin backing.now }
    ensures plain { is_no_rom result ≡ true }
{
    match backing {
        Backing::Memory => Origin::Empty,
        Backing::Cell { volume, cell } => Origin::NewCell {
            volume: *volume,
            cell: *cell,
        },
        Backing::Device { device } => Origin::Device { device: *device },
    }
}

// Refers to the file at the path by the session's least number without a reference.
fn refer_to(
    namespace: &mut Namespace,
    session: SessionId,
    path: &[Name],
    file: &FileId,
    kind: Kind,
) -> HoldId
    ensures hold { result ≡ record { session = session; number = least_free_number namespace.old session } }
    ensures next { namespace.new ≡ with_reference namespace.old session (least_free_number namespace.old session) (Some (record { role = Role.Open; file = file.now; kind = kind; mount = (covering_mount namespace.old path.now).number })) }
{
    let number = least_free_number(namespace, session);
    let reference = Reference {
        role: Role::Open,
        file: *file,
        kind,
        mount: covering_mount(namespace, path).number,
    };
    set_reference(namespace, session, number, Some(reference));
    HoldId { session, number }
}
