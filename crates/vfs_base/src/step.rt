//! Steps: the events of the system.

use crate::flags::OpenFlags;
use crate::ids::{FileId, HoldId, RowId};
use crate::list::Bytes;

/// One event of the system: a change of the namespace together with the vnode slots that it needs,
/// or a transfer of one file. A path is any text; it is read against the session's working directory.
#[derive(Debug)]
pub enum Step {
    /// What stands at a path (POSIX.1-2017, stat).
    Stat {
        path: Bytes,
    },
    /// Opens a file (POSIX.1-2017, open).
    Open {
        path: Bytes,
        flags: OpenFlags,
    },
    /// Gives up an open file (POSIX.1-2017, close).
    Close {
        hold: HoldId,
    },
    /// Makes a folder (POSIX.1-2017, mkdir).
    Mkdir {
        path: Bytes,
    },
    /// Removes an empty folder (POSIX.1-2017, rmdir).
    Rmdir {
        path: Bytes,
    },
    /// Removes the name of a file (POSIX.1-2017, unlink).
    Unlink {
        path: Bytes,
    },
    /// Moves a file, or a folder with all below it (POSIX.1-2017, rename).
    Rename {
        old: Bytes,
        new: Bytes,
    },
    /// The names in a folder.
    List {
        path: Bytes,
    },
    /// Makes a folder the session's working directory (POSIX.1-2017, chdir).
    Chdir {
        path: Bytes,
    },
    /// Makes `/` the session's working directory.
    Home,
    /// The session's working directory (POSIX.1-2017, getcwd).
    Cwd,
    /// Mounts a file system of the type that `fs` names on an empty folder.
    Mount {
        source: Bytes,
        point: Bytes,
        fs: Bytes,
    },
    /// Unmounts a file system that nothing uses.
    Umount {
        point: Bytes,
    },
    /// Refers to an open file by a mapping (POSIX.1-2017, mmap, with shared pages).
    Map {
        hold: HoldId,
    },
    /// Gives up a mapping (POSIX.1-2017, munmap).
    Unmap {
        hold: HoldId,
    },
    /// The mounts, in the order of mounting.
    Mounts,
    /// How many holders each path has.
    Dentries,
    /// The linked files of cell mounts.
    Cells,
    /// Takes all names from a volume that is not mounted.
    Mkfs {
        name: Bytes,
    },
    /// The devices and the roms.
    Devices,
    /// The number of bytes of a file.
    Size {
        file: FileId,
    },
    /// At most `len` bytes of a file from `off` (POSIX.1-2017, pread).
    Read {
        file: FileId,
        off: u64,
        len: u64,
    },
    /// Writes bytes into a file at `off` (POSIX.1-2017, pwrite).
    Write {
        file: FileId,
        off: u64,
        bytes: Bytes,
    },
    /// Writes bytes at the end of a file (POSIX.1-2017, write with `O_APPEND`).
    Append {
        file: FileId,
        bytes: Bytes,
    },
    /// Cuts a file to `len` bytes, or pads it with zeros (POSIX.1-2017, ftruncate).
    Trunc {
        file: FileId,
        len: u64,
    },
    /// Writes a file's dirty pages to its device (POSIX.1-2017, fsync).
    Sync {
        file: FileId,
    },
    /// Reads `len` bytes from `off` through a mapping.
    Load {
        file: FileId,
        off: u64,
        len: u64,
    },
    /// Writes bytes at `off` through a mapping.
    Store {
        file: FileId,
        off: u64,
        bytes: Bytes,
    },
    /// The worker's write-back of a vnode slot's dirty pages.
    Flush {
        row: RowId,
    },
    /// The worker's eviction of a vnode slot's pages.
    Reclaim {
        row: RowId,
    },
    /// Writes everything back and unmounts everything.
    Shutdown,
}

// By hand, so that a function that lets a step go makes one call, and not one for each variant.
impl Drop for Step {
    fn drop(self) {
        match self {
            Step::Stat { path: _text }
            | Step::Open {
                path: _text,
                flags: _,
            }
            | Step::Mkdir { path: _text }
            | Step::Rmdir { path: _text }
            | Step::Unlink { path: _text }
            | Step::List { path: _text }
            | Step::Chdir { path: _text }
            | Step::Umount { point: _text }
            | Step::Mkfs { name: _text }
            | Step::Write {
                file: _,
                off: _,
                bytes: _text,
            }
            | Step::Append {
                file: _,
                bytes: _text,
            }
            | Step::Store {
                file: _,
                off: _,
                bytes: _text,
            } => {}
            Step::Rename {
                old: _old,
                new: _new,
            } => {}
            Step::Mount {
                source: _source,
                point: _point,
                fs: _fs,
            } => {}
            Step::Close { hold: _ }
            | Step::Home
            | Step::Cwd
            | Step::Map { hold: _ }
            | Step::Unmap { hold: _ }
            | Step::Mounts
            | Step::Dentries
            | Step::Cells
            | Step::Devices
            | Step::Size { file: _ }
            | Step::Read {
                file: _,
                off: _,
                len: _,
            }
            | Step::Trunc { file: _, len: _ }
            | Step::Sync { file: _ }
            | Step::Load {
                file: _,
                off: _,
                len: _,
            }
            | Step::Flush { row: _ }
            | Step::Reclaim { row: _ }
            | Step::Shutdown => {}
        }
    }
}
