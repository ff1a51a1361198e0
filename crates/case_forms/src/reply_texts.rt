//! Texts of replies.

use crate::escapes::push_escaped;
use vfs_base::{
    Bytes, DeviceLine, FileId, FsType, HolderLine, HolderPlace, Kind, ListEntry, MountLine,
    NoMemory, NodeKind, Reply, push_number, push_printed,
};

/// Puts the reply at the end.
pub fn push_reply(out: &mut Bytes, reply: &Reply) -> Result<(), NoMemory> {
    match reply {
        Reply::Done => out.extend_from_slice(b"done"),
        Reply::Opened { hold, file, kind } => {
            push_field(out, b"opened ", u64::from(hold.number))?;
            out.push(b' ')?;
            push_file(out, *file, *kind)
        }
        Reply::Held { hold } => push_field(out, b"held ", u64::from(hold.number)),
        Reply::Node { node } => push_node(out, *node),
        Reply::Listing { path, entries } => {
            push_printed(out, path)?;
            push_entries(out, entries.as_slice())
        }
        Reply::At { path } => push_printed(out, path),
        Reply::Got { bytes } => {
            out.extend_from_slice(b"got ")?;
            push_escaped(out, bytes.as_slice())
        }
        Reply::Count { n, end } => {
            push_field(out, b"count ", *n)?;
            push_field(out, b" end ", *end)
        }
        Reply::SizeIs { size } => push_field(out, b"size ", *size),
        Reply::MountList { lines } => push_mounts(out, lines.as_slice()),
        Reply::Holders { lines } => push_holders(out, lines.as_slice()),
        Reply::Files { files } => push_files(out, files.as_slice()),
        Reply::DeviceList { lines } => push_devices(out, lines.as_slice()),
        Reply::Refused { errno } => out.extend_from_slice(errno.name().as_bytes()),
    }
}

fn push_field(out: &mut Bytes, word: &[u8], number: u64) -> Result<(), NoMemory> {
    out.extend_from_slice(word)?;
    push_number(out, number)
}

// A file is shown as its row, its generation and its kind.
fn push_file(out: &mut Bytes, file: FileId, kind: Kind) -> Result<(), NoMemory> {
    push_field(out, b"file ", u64::from(file.row.number()))?;
    push_field(out, b".", file.generation.number())?;
    out.extend_from_slice(kind_word(kind).as_bytes())
}

fn kind_word(kind: Kind) -> &'static str {
    match kind {
        Kind::Tmp => " tmp",
        Kind::Rom => " rom",
        Kind::Cell => " cell",
        Kind::Chr => " chr",
    }
}

fn push_node(out: &mut Bytes, node: NodeKind) -> Result<(), NoMemory> {
    match node {
        NodeKind::Dir => out.extend_from_slice(b"folder"),
        NodeKind::File { file, kind } => push_file(out, file, kind),
    }
}

fn push_entries(out: &mut Bytes, entries: &[ListEntry]) -> Result<(), NoMemory> {
    for entry in entries {
        out.push(b' ')?;
        out.extend_from_slice(entry.name.as_bytes())?;
        out.extend_from_slice(slash_of(entry.node))?;
    }
    Ok(())
}

fn slash_of(node: NodeKind) -> &'static [u8] {
    match node {
        NodeKind::Dir => b"/",
        NodeKind::File { .. } => b"",
    }
}

fn push_mounts(out: &mut Bytes, lines: &[MountLine]) -> Result<(), NoMemory> {
    for line in lines {
        push_printed(out, &line.point)?;
        out.extend_from_slice(type_word(line.fs).as_bytes())?;
        out.extend_from_slice(line.source.as_slice())?;
        push_field(out, b" nodes ", u64::from(line.nodes))?;
        push_field(out, b" spare ", u64::from(line.spare))?;
        out.push(b';')?;
    }
    Ok(())
}

fn type_word(fs: FsType) -> &'static str {
    match fs {
        FsType::Tmp => " tmp ",
        FsType::Rom => " rom ",
        FsType::Cell => " cell ",
        FsType::Dev => " devfs ",
    }
}

fn push_holders(out: &mut Bytes, lines: &[HolderLine]) -> Result<(), NoMemory> {
    for line in lines {
        push_place(out, &line.place)?;
        push_field(out, b" ", u64::from(line.count))?;
        out.push(b';')?;
    }
    Ok(())
}

fn push_place(out: &mut Bytes, place: &HolderPlace) -> Result<(), NoMemory> {
    match place {
        HolderPlace::At { path } => push_printed(out, path),
        HolderPlace::Row { row } => push_field(out, b"slot ", u64::from(row.number())),
    }
}

fn push_files(out: &mut Bytes, files: &[FileId]) -> Result<(), NoMemory> {
    out.extend_from_slice(b"files:")?;
    for file in files {
        out.push(b' ')?;
        push_file(out, *file, Kind::Cell)?;
    }
    Ok(())
}

fn push_devices(out: &mut Bytes, lines: &[DeviceLine]) -> Result<(), NoMemory> {
    for line in lines {
        out.extend_from_slice(line.name.as_bytes())?;
        out.extend_from_slice(mounted_word(line.mounted).as_bytes())?;
    }
    Ok(())
}

fn mounted_word(is_mounted: bool) -> &'static str {
    if is_mounted { " mounted;" } else { ";" }
}
