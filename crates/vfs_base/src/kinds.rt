//! Kinds of files, of file systems, of nodes and of devices.

use crate::ids::FileId;

/// What a file's bytes lie in.
#[derive(Clone, Copy, Debug, PartialEq, Eq)]
pub enum Kind {
    /// Memory.
    Tmp,
    /// A read-only image.
    Rom,
    /// A block device of its own, behind the page cache.
    Cell,
    /// A character device.
    Chr,
}

/// The type of a file system. Rom and devfs are read-only.
#[derive(Clone, Copy, Debug, PartialEq, Eq)]
pub enum FsType {
    /// `tmp`, in memory.
    Tmp,
    /// `rom`, a read-only image.
    Rom,
    /// `cell`, a volume in which each file occupies one block device.
    Cell,
    /// `devfs`, the character devices.
    Dev,
}

/// What stands at a path.
#[derive(Clone, Copy, Debug, PartialEq, Eq)]
pub enum NodeKind {
    /// A folder.
    Dir,
    /// A file.
    File {
        /// The file that stands there.
        file: FileId,
        /// Its kind.
        kind: Kind,
    },
}

/// The class of a device in a device list.
#[derive(Clone, Copy, Debug, PartialEq, Eq)]
pub enum DeviceClass {
    /// A volume of block devices.
    Block,
    /// A character device.
    Char,
    /// A rom.
    Rom,
}
