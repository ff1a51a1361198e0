//! Replies of texts: `opened 1 2 tmp` is reference 1 to the file of slot 2. The bytes of a Got have the escapes of a
//! case's lines.

use crate::case_fault::CaseFault;
use crate::escapes::push_text;
use std::alloc::Global;
use vfs_base::{
    Bytes, DeviceClass, DeviceLine, Errno, FileId, FsType, Generation, HoldId, HolderLine,
    HolderPlace, Kind, List, ListEntry, MountLine, Name, NodeKind, Path, Reply, RowId, SessionId,
    copy_bytes,
};

/// The reply.
pub fn reply_of(alloc: Global, text: &str) -> Result<Reply, CaseFault> {
    if let Some((_, bytes)) = text.split_once(" got ") {
        return got(alloc, bytes);
    }
    let words: Vec<&str> = text.split_whitespace().collect(alloc)?;
    reply_of_words(alloc, words.as_slice())
}

fn reply_of_words(alloc: Global, words: &[&str]) -> Result<Reply, CaseFault> {
    match *words {
        ["done"] => Ok(Reply::Done),
        ["folder"] => Ok(Reply::Node {
            node: NodeKind::Dir,
        }),
        ["file", row, kind] => Ok(Reply::Node {
            node: file_node(row, kind)?,
        }),
        ["opened", hold, row, kind] => Ok(Reply::Opened {
            hold: hold_of(hold)?,
            file: file_of(row)?,
            kind: kind_of(kind)?,
        }),
        ["held", hold] => Ok(Reply::Held {
            hold: hold_of(hold)?,
        }),
        ["at", path] => Ok(Reply::At {
            path: path_of(alloc, path)?,
        }),
        ["count", n, end] => Ok(Reply::Count {
            n: n.parse()?,
            end: end.parse()?,
        }),
        ["size", size] => Ok(Reply::SizeIs {
            size: size.parse()?,
        }),
        [word] => short_reply(alloc, word),
        [word, ..] => long_reply(alloc, word, &words[1..]),
        [] => Err(CaseFault::Reply),
    }
}

fn got(alloc: Global, text: &str) -> Result<Reply, CaseFault> {
    let mut bytes = Bytes::new(alloc);
    push_text(&mut bytes, text)?;
    Ok(Reply::Got { bytes })
}

// A reply without parts, or an error.
fn short_reply(alloc: Global, word: &str) -> Result<Reply, CaseFault> {
    match word {
        "got" => Ok(Reply::Got {
            bytes: Bytes::new(alloc),
        }),
        "files" => Ok(Reply::Files {
            files: List::new(alloc),
        }),
        _ => Ok(Reply::Refused {
            errno: errno_of(word)?,
        }),
    }
}

fn errno_of(word: &str) -> Result<Errno, CaseFault> {
    for errno in [
        Errno::EPERM,
        Errno::ENOENT,
        Errno::EIO,
        Errno::EBADF,
        Errno::ENOMEM,
        Errno::EBUSY,
        Errno::EEXIST,
        Errno::EXDEV,
        Errno::EISDIR,
        Errno::EINVAL,
        Errno::EFBIG,
        Errno::ENOSPC,
        Errno::EROFS,
        Errno::ENXIO,
        Errno::EFAULT,
    ] {
        if errno.name() == word {
            return Ok(errno);
        }
    }
    Err(CaseFault::Reply)
}

// A reply with any number of parts.
fn long_reply(alloc: Global, word: &str, parts: &[&str]) -> Result<Reply, CaseFault> {
    match word {
        "list" => listing(alloc, parts),
        "mounts" => mounts(alloc, parts),
        "holders" => holders(alloc, parts),
        "files" => files(alloc, parts),
        "devices" => devices(alloc, parts),
        _ => Err(CaseFault::Reply),
    }
}

// A folder is `NAME/`, a file `NAME:ROW:KIND`.
fn listing(alloc: Global, parts: &[&str]) -> Result<Reply, CaseFault> {
    let [path, names @ ..] = parts else {
        return Err(CaseFault::Reply);
    };
    let path = path_of(alloc, path)?;
    let entries = entries_of(alloc, names)?;
    Ok(Reply::Listing { path, entries })
}

fn entries_of(alloc: Global, names: &[&str]) -> Result<List<ListEntry>, CaseFault> {
    let mut entries = List::new(alloc);
    for name in names {
        entries.push(entry_of(alloc, name)?)?;
    }
    Ok(entries)
}

fn entry_of(alloc: Global, text: &str) -> Result<ListEntry, CaseFault> {
    if let Some((name, _)) = text.split_once("/") {
        return Ok(ListEntry {
            name: name_of(alloc, name)?,
            node: NodeKind::Dir,
        });
    }
    let (name, file) = text.split_once(":").ok_or(CaseFault::Reply)?;
    let (row, kind) = file.split_once(":").ok_or(CaseFault::Reply)?;
    let node = file_node(row, kind)?;
    Ok(ListEntry {
        name: name_of(alloc, name)?,
        node,
    })
}

// Each line is `SOURCE,TYPE,NODES,SPARE,POINT`.
fn mounts(alloc: Global, parts: &[&str]) -> Result<Reply, CaseFault> {
    let mut lines = List::new(alloc);
    for part in parts {
        lines.push(mount_line(alloc, part)?)?;
    }
    Ok(Reply::MountList { lines })
}

fn mount_line(alloc: Global, text: &str) -> Result<MountLine, CaseFault> {
    let (source, text) = text.split_once(",").ok_or(CaseFault::Reply)?;
    let (fs, text) = text.split_once(",").ok_or(CaseFault::Reply)?;
    let (nodes, text) = text.split_once(",").ok_or(CaseFault::Reply)?;
    let (spare, point) = text.split_once(",").ok_or(CaseFault::Reply)?;
    let fs = fs_of(fs)?;
    let (nodes, spare) = (nodes.parse()?, spare.parse()?);
    let source = copy_bytes(alloc, source.as_bytes())?;
    Ok(MountLine {
        source,
        fs,
        nodes,
        spare,
        point: path_of(alloc, point)?,
    })
}

fn fs_of(word: &str) -> Result<FsType, CaseFault> {
    match word {
        "tmp" => Ok(FsType::Tmp),
        "rom" => Ok(FsType::Rom),
        "cell" => Ok(FsType::Cell),
        "devfs" => Ok(FsType::Dev),
        _ => Err(CaseFault::Reply),
    }
}

// Each line is `PATH,COUNT` or `ROW,COUNT`.
fn holders(alloc: Global, parts: &[&str]) -> Result<Reply, CaseFault> {
    let mut lines = List::new(alloc);
    for part in parts {
        lines.push(holder_line(alloc, part)?)?;
    }
    Ok(Reply::Holders { lines })
}

fn holder_line(alloc: Global, text: &str) -> Result<HolderLine, CaseFault> {
    let (place, count) = text.split_once(",").ok_or(CaseFault::Reply)?;
    let count = count.parse()?;
    Ok(HolderLine {
        place: place_of(alloc, place)?,
        count,
    })
}

fn place_of(alloc: Global, text: &str) -> Result<HolderPlace, CaseFault> {
    if text.split_once("/").is_some() {
        return Ok(HolderPlace::At {
            path: path_of(alloc, text)?,
        });
    }
    Ok(HolderPlace::Row {
        row: file_of(text)?.row,
    })
}

fn files(alloc: Global, parts: &[&str]) -> Result<Reply, CaseFault> {
    let mut files = List::new(alloc);
    for part in parts {
        files.push(file_of(part)?)?;
    }
    Ok(Reply::Files { files })
}

// Each line is `NAME,CLASS,STATE`.
fn devices(alloc: Global, parts: &[&str]) -> Result<Reply, CaseFault> {
    let mut lines = List::new(alloc);
    for part in parts {
        lines.push(device_line(alloc, part)?)?;
    }
    Ok(Reply::DeviceList { lines })
}

fn device_line(alloc: Global, text: &str) -> Result<DeviceLine, CaseFault> {
    let (name, text) = text.split_once(",").ok_or(CaseFault::Reply)?;
    let (class, state) = text.split_once(",").ok_or(CaseFault::Reply)?;
    let class = class_of(class)?;
    Ok(DeviceLine {
        name: name_of(alloc, name)?,
        class,
        mounted: state == "mounted",
    })
}

fn class_of(word: &str) -> Result<DeviceClass, CaseFault> {
    match word {
        "block" => Ok(DeviceClass::Block),
        "char" => Ok(DeviceClass::Char),
        "rom" => Ok(DeviceClass::Rom),
        _ => Err(CaseFault::Reply),
    }
}

fn hold_of(number: &str) -> Result<HoldId, CaseFault> {
    Ok(HoldId {
        session: SessionId::FIRST,
        number: number.parse()?,
    })
}

fn file_of(row: &str) -> Result<FileId, CaseFault> {
    Ok(FileId {
        row: RowId::new(row.parse()?).ok_or(CaseFault::Reply)?,
        generation: Generation::FIRST,
    })
}

fn file_node(row: &str, kind: &str) -> Result<NodeKind, CaseFault> {
    Ok(NodeKind::File {
        file: file_of(row)?,
        kind: kind_of(kind)?,
    })
}

/// The kind of this name.
pub fn kind_of(word: &str) -> Result<Kind, CaseFault> {
    match word {
        "tmp" => Ok(Kind::Tmp),
        "rom" => Ok(Kind::Rom),
        "cell" => Ok(Kind::Cell),
        "chr" => Ok(Kind::Chr),
        _ => Err(CaseFault::Reply),
    }
}

/// The name of these letters.
pub fn name_of(alloc: Global, text: &str) -> Result<Name, CaseFault> {
    let name = Name::from_bytes(copy_bytes(alloc, text.as_bytes())?);
    Ok(name.ok_or(CaseFault::Name)?)
}

/// The path of the names between the slashes.
pub fn path_of(alloc: Global, text: &str) -> Result<Path, CaseFault> {
    let mut path = Path::root(alloc);
    for part in text.split("/") {
        push_part(&mut path, alloc, part)?;
    }
    Ok(path)
}

fn push_part(path: &mut Path, alloc: Global, part: &str) -> Result<(), CaseFault> {
    if part.is_empty() {
        return Ok(());
    }
    Ok(path.push(name_of(alloc, part)?)?)
}
