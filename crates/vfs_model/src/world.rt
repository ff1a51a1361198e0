//! The plain world: the namespace, the files behind its rows, and what lies at home.

use crate::namespace::Namespace;
use vfs_base::{Bytes, Kind, List};

/// What one row stands for.
#[derive(Debug, Drop)]
pub enum FileState {
    /// No file; the generation is that of the row's last file, or 0.
    Unbound {
        generation: u64,
    },
    /// A file's bytes, at most `capacity` of them.
    Bytes {
        generation: u64,
        kind: Kind,
        capacity: u64,
        bytes: Bytes,
    },
    /// A character device: the input that is left, and the output so far.
    Device {
        generation: u64,
        input: Bytes,
        output: Bytes,
    },
}

/// A character device at home: the input that is left, and the output so far.
#[derive(Debug, Drop)]
pub struct DeviceHome {
    pub input: Bytes,
    pub output: Bytes,
}

/// What no row holds.
#[derive(Debug, Drop)]
pub struct Homes {
    /// By volume and cell, the bytes of the file that an unmounted volume keeps there; else none.
    pub cells: List<List<Bytes>>,
    /// Each character device; nothing while a row has it.
    pub devices: List<DeviceHome>,
}

/// The plain world.
#[derive(Debug, Drop)]
pub struct WorldState {
    pub namespace: Namespace,
    /// The file of each row, from the first row on.
    pub files: List<FileState>,
    pub homes: Homes,
}
