//! Replies to steps.

use crate::errno::Errno;
use crate::ids::{FileId, HoldId, RowId};
use crate::kinds::{DeviceClass, FsType, Kind, NodeKind};
use crate::list::{Bytes, List};
use crate::name::Name;
use crate::path::Path;

/// The reply to a step.
#[derive(Debug)]
pub enum Reply {
    /// The step was taken, and there is nothing to tell.
    Done,
    /// The file is open under this reference.
    Opened {
        hold: HoldId,
        file: FileId,
        kind: Kind,
    },
    /// The file is mapped under this reference.
    Held {
        hold: HoldId,
    },
    /// What stands at the path.
    Node {
        node: NodeKind,
    },
    /// The folder's path, and what is in it, in byte order of the names.
    Listing {
        path: Path,
        entries: List<ListEntry>,
    },
    /// The session's working directory.
    At {
        path: Path,
    },
    /// The bytes that were read.
    Got {
        bytes: Bytes,
    },
    /// The number of bytes that were written, and the offset behind the last of them.
    Count {
        n: u64,
        end: u64,
    },
    /// The file's number of bytes.
    SizeIs {
        size: u64,
    },
    /// The mounts, in the order of mounting.
    MountList {
        lines: List<MountLine>,
    },
    /// The holders of paths in byte order, then of files without a name by vnode slot.
    Holders {
        lines: List<HolderLine>,
    },
    /// The linked files of cell mounts, by vnode slot.
    Files {
        files: List<FileId>,
    },
    /// Volumes, then character devices, then roms, each in the order handed in.
    DeviceList {
        lines: List<DeviceLine>,
    },
    /// The step was refused.
    Refused {
        errno: Errno,
    },
}

// By hand, so that a function that lets a reply go makes one call, and not one for each variant.
impl Drop for Reply {
    fn drop(self) {
        match self {
            Reply::Listing {
                path: _path,
                entries: _entries,
            } => {}
            Reply::At { path: _path } => {}
            Reply::Got { bytes: _bytes } => {}
            Reply::MountList { lines: _lines } => {}
            Reply::Holders { lines: _lines } => {}
            Reply::Files { files: _files } => {}
            Reply::DeviceList { lines: _lines } => {}
            Reply::Done
            | Reply::Opened {
                hold: _,
                file: _,
                kind: _,
            }
            | Reply::Held { hold: _ }
            | Reply::Node { node: _ }
            | Reply::Count { n: _, end: _ }
            | Reply::SizeIs { size: _ }
            | Reply::Refused { errno: _ } => {}
        }
    }
}

/// A name in a folder, and what stands there.
#[derive(Debug, Drop)]
pub struct ListEntry {
    pub name: Name,
    pub node: NodeKind,
}

/// A mount.
#[derive(Debug, Drop)]
pub struct MountLine {
    /// The source word that the mount was asked for with.
    pub source: Bytes,
    pub fs: FsType,
    /// Its nodes beside the root.
    pub nodes: u16,
    /// How many more files it can hold, where its type counts them.
    pub spare: u16,
    /// Where it is mounted.
    pub point: Path,
}

/// How many holders a place has.
#[derive(Debug, Drop)]
pub struct HolderLine {
    pub place: HolderPlace,
    /// At least 1.
    pub count: u32,
}

/// What is held: a path, or a file that has no name any more.
#[derive(Debug, Drop)]
pub enum HolderPlace {
    At { path: Path },
    Row { row: RowId },
}

/// A device.
#[derive(Debug, Drop)]
pub struct DeviceLine {
    pub name: Name,
    pub class: DeviceClass,
    /// Whether a mount uses it.
    pub mounted: bool,
}
