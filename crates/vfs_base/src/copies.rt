//! Copies of steps and of replies, in memory of their own.

ghost use Rattle.std.specs.Prelude.{◌≡◌, IfOk, OnErr};
ghost use Rattle.vfs_base.specs.Flat.{IsFlat, IsFlatStep};
ghost use Rattle.vfs_base.specs.declared.reply.Reply.TheVariants as replies;
ghost use Rattle.vfs_base.specs.declared.step.Step.TheVariants as steps;

use crate::flags::OpenFlags;
use crate::ids::FileId;
use crate::list::{Bytes, List, copy_bytes};
use crate::no_memory::NoMemory;
use crate::path::Path;
use crate::reply::{DeviceLine, HolderLine, HolderPlace, ListEntry, MountLine, Reply};
use crate::step::Step;
use std::alloc::Global;

/// The same step in memory of its own.
pub fn copy_step(alloc: Global, step: &Step) -> Result<Step, NoMemory>
    ensures same { IfOk result (λ copy. copy ≡ step.now) }
    ensures flat { OnErr result (IsFlatStep step.now → ⊥) }
{
    match step {
        Step::Stat { path } => Ok(Step::Stat {
            path: copy_text(alloc, path)?,
        }),
        Step::Open { path, flags } => copy_open(alloc, path, *flags),
        Step::Mkdir { path } => Ok(Step::Mkdir {
            path: copy_text(alloc, path)?,
        }),
        Step::Rmdir { path } => Ok(Step::Rmdir {
            path: copy_text(alloc, path)?,
        }),
        Step::Unlink { path } => Ok(Step::Unlink {
            path: copy_text(alloc, path)?,
        }),
        Step::Rename { old, new } => copy_rename(alloc, old, new),
        Step::List { path } => Ok(Step::List {
            path: copy_text(alloc, path)?,
        }),
        Step::Chdir { path } => Ok(Step::Chdir {
            path: copy_text(alloc, path)?,
        }),
        Step::Mount { source, point, fs } => copy_mount(alloc, source, point, fs),
        Step::Umount { point } => Ok(Step::Umount {
            point: copy_text(alloc, point)?,
        }),
        Step::Mkfs { name } => Ok(Step::Mkfs {
            name: copy_text(alloc, name)?,
        }),
        Step::Write { file, off, bytes } => copy_write(alloc, *file, *off, bytes),
        Step::Append { file, bytes } => copy_append(alloc, *file, bytes),
        Step::Store { file, off, bytes } => copy_store(alloc, *file, *off, bytes),
        _ => Ok(copy_flat_step(step)),
    }
}

/// The same step, where it holds no text.
pub fn copy_flat_step(step: &Step) -> Step
    requires { IsFlatStep step.now }
    ensures { result ≡ step.now }
{
    match step {
        Step::Close { hold } => Step::Close { hold: *hold },
        Step::Home => Step::Home,
        Step::Cwd => Step::Cwd,
        Step::Map { hold } => Step::Map { hold: *hold },
        Step::Unmap { hold } => Step::Unmap { hold: *hold },
        Step::Mounts => Step::Mounts,
        Step::Dentries => Step::Dentries,
        Step::Cells => Step::Cells,
        Step::Devices => Step::Devices,
        Step::Size { file } => Step::Size { file: *file },
        Step::Read { file, off, len } => Step::Read {
            file: *file,
            off: *off,
            len: *len,
        },
        Step::Trunc { file, len } => Step::Trunc {
            file: *file,
            len: *len,
        },
        Step::Sync { file } => Step::Sync { file: *file },
        Step::Load { file, off, len } => Step::Load {
            file: *file,
            off: *off,
            len: *len,
        },
        Step::Flush { row } => Step::Flush { row: *row },
        Step::Reclaim { row } => Step::Reclaim { row: *row },
        Step::Shutdown => Step::Shutdown,
        _ => unreachable!(),
    }
}

fn copy_text(alloc: Global, bytes: &Bytes) -> Result<Bytes, NoMemory>
    ensures { IfOk result (λ copy. copy ≡ bytes.now) }
{
    copy_bytes(alloc, bytes.as_slice())
}

fn copy_open(alloc: Global, path: &Bytes, flags: OpenFlags) -> Result<Step, NoMemory>
    ensures { IfOk result (λ copy. copy ≡ steps.Open path.now flags) }
{
    let path = copy_text(alloc, path)?;
    Ok(Step::Open { path, flags })
}

fn copy_rename(alloc: Global, old: &Bytes, new: &Bytes) -> Result<Step, NoMemory>
    ensures { IfOk result (λ copy. copy ≡ steps.Rename old.now new.now) }
{
    let old = copy_text(alloc, old)?;
    let new = copy_text(alloc, new)?;
    Ok(Step::Rename { old, new })
}

fn copy_mount(alloc: Global, source: &Bytes, point: &Bytes, fs: &Bytes) -> Result<Step, NoMemory>
    ensures { IfOk result (λ copy. copy ≡ steps.Mount source.now point.now fs.now) }
{
    let source = copy_text(alloc, source)?;
    let point = copy_text(alloc, point)?;
    let fs = copy_text(alloc, fs)?;
    Ok(Step::Mount { source, point, fs })
}

fn copy_write(alloc: Global, file: FileId, off: u64, bytes: &Bytes) -> Result<Step, NoMemory>
    ensures { IfOk result (λ copy. copy ≡ steps.Write file off bytes.now) }
{
    let bytes = copy_text(alloc, bytes)?;
    Ok(Step::Write { file, off, bytes })
}

fn copy_append(alloc: Global, file: FileId, bytes: &Bytes) -> Result<Step, NoMemory>
    ensures { IfOk result (λ copy. copy ≡ steps.Append file bytes.now) }
{
    let bytes = copy_text(alloc, bytes)?;
    Ok(Step::Append { file, bytes })
}

fn copy_store(alloc: Global, file: FileId, off: u64, bytes: &Bytes) -> Result<Step, NoMemory>
    ensures { IfOk result (λ copy. copy ≡ steps.Store file off bytes.now) }
{
    let bytes = copy_text(alloc, bytes)?;
    Ok(Step::Store { file, off, bytes })
}

/// The same reply in memory of its own. It fails only where the reply holds a list.
pub fn copy_reply(alloc: Global, reply: &Reply) -> Result<Reply, NoMemory>
    ensures same { IfOk result (λ copy. copy ≡ reply.now) }
    ensures flat { OnErr result (IsFlat reply.now → ⊥) }
{
    match reply {
        Reply::Listing { path, entries } => copy_listing(alloc, path, entries.as_slice()),
        Reply::At { path } => Ok(Reply::At { path: path.copy()? }),
        Reply::Got { bytes } => Ok(Reply::Got {
            bytes: copy_text(alloc, bytes)?,
        }),
        Reply::MountList { lines } => Ok(Reply::MountList {
            lines: copy_mounts(alloc, lines.as_slice())?,
        }),
        Reply::Holders { lines } => Ok(Reply::Holders {
            lines: copy_holders(alloc, lines.as_slice())?,
        }),
        Reply::Files { files } => Ok(Reply::Files {
            files: List::from_slice(alloc, files.as_slice())?,
        }),
        Reply::DeviceList { lines } => Ok(Reply::DeviceList {
            lines: copy_devices(alloc, lines.as_slice())?,
        }),
        _ => Ok(copy_flat(reply)),
    }
}

/// The same reply, where it holds no list.
pub fn copy_flat(reply: &Reply) -> Reply
    requires { IsFlat reply.now }
    ensures { result ≡ reply.now }
{
    match reply {
        Reply::Done => Reply::Done,
        Reply::Opened { hold, file, kind } => Reply::Opened {
            hold: *hold,
            file: *file,
            kind: *kind,
        },
        Reply::Held { hold } => Reply::Held { hold: *hold },
        Reply::Node { node } => Reply::Node { node: *node },
        Reply::Count { n, end } => Reply::Count { n: *n, end: *end },
        Reply::SizeIs { size } => Reply::SizeIs { size: *size },
        Reply::Refused { errno } => Reply::Refused { errno: *errno },
        _ => unreachable!(),
    }
}

fn copy_listing(alloc: Global, path: &Path, entries: &[ListEntry]) -> Result<Reply, NoMemory>
    ensures { IfOk result (λ copy. copy ≡ replies.Listing path.now entries.now) }
{
    let path = path.copy()?;
    let entries = copy_entries(alloc, entries)?;
    Ok(Reply::Listing { path, entries })
}

fn copy_entries(alloc: Global, entries: &[ListEntry]) -> Result<List<ListEntry>, NoMemory>
    ensures { IfOk result (λ copy. copy ≡ entries.now) }
{
    let mut copies = List::new(alloc);
    for entry in entries {
        copies.push(copy_entry(entry)?)?;
    }
    Ok(copies)
}

fn copy_entry(entry: &ListEntry) -> Result<ListEntry, NoMemory>
    ensures { IfOk result (λ copy. copy ≡ entry.now) }
{
    let name = entry.name.copy()?;
    Ok(ListEntry {
        name,
        node: entry.node,
    })
}

fn copy_mounts(alloc: Global, lines: &[MountLine]) -> Result<List<MountLine>, NoMemory>
    ensures { IfOk result (λ copy. copy ≡ lines.now) }
{
    let mut copies = List::new(alloc);
    for line in lines {
        copies.push(copy_mount_line(alloc, line)?)?;
    }
    Ok(copies)
}

fn copy_mount_line(alloc: Global, line: &MountLine) -> Result<MountLine, NoMemory>
    ensures { IfOk result (λ copy. copy ≡ line.now) }
{
    let source = copy_text(alloc, &line.source)?;
    let point = line.point.copy()?;
    Ok(MountLine {
        source,
        fs: line.fs,
        nodes: line.nodes,
        spare: line.spare,
        point,
    })
}

fn copy_holders(alloc: Global, lines: &[HolderLine]) -> Result<List<HolderLine>, NoMemory>
    ensures { IfOk result (λ copy. copy ≡ lines.now) }
{
    let mut copies = List::new(alloc);
    for line in lines {
        copies.push(copy_holder_line(line)?)?;
    }
    Ok(copies)
}

fn copy_holder_line(line: &HolderLine) -> Result<HolderLine, NoMemory>
    ensures { IfOk result (λ copy. copy ≡ line.now) }
{
    let place = copy_place(&line.place)?;
    Ok(HolderLine {
        place,
        count: line.count,
    })
}

fn copy_place(place: &HolderPlace) -> Result<HolderPlace, NoMemory>
    ensures { IfOk result (λ copy. copy ≡ place.now) }
{
    match place {
        HolderPlace::At { path } => Ok(HolderPlace::At { path: path.copy()? }),
        HolderPlace::Row { row } => Ok(HolderPlace::Row { row: *row }),
    }
}

fn copy_devices(alloc: Global, lines: &[DeviceLine]) -> Result<List<DeviceLine>, NoMemory>
    ensures { IfOk result (λ copy. copy ≡ lines.now) }
{
    let mut copies = List::new(alloc);
    for line in lines {
        copies.push(copy_device_line(line)?)?;
    }
    Ok(copies)
}

fn copy_device_line(line: &DeviceLine) -> Result<DeviceLine, NoMemory>
    ensures { IfOk result (λ copy. copy ≡ line.now) }
{
    let name = line.name.copy()?;
    Ok(DeviceLine {
        name,
        class: line.class,
        mounted: line.mounted,
    })
}
