//! The plain namespace: mounts, trees, live files, references, folders, and what files come from.

use vfs_base::{Bytes, FileId, FsType, Kind, List, MountId, Name, NodeKind, PageCount, Path};

/// A mount.
#[derive(Debug, Drop)]
pub struct Mount {
    /// Its number; no two mounts have one.
    pub number: MountId,
    /// Where it is mounted.
    pub point: Path,
    pub fs: FsType,
    /// The source word that it was asked for with.
    pub source: Bytes,
}

/// What stands at each path of a file system, in the order of paths; the root is not among them.
pub type Tree = List<(Path, NodeKind)>;

/// What a live file has beside memory, and gives back when it is freed.
#[derive(Debug, Drop)]
pub enum Backing {
    /// Nothing: its bytes lie in memory.
    Memory,
    /// A cell of a volume; volumes and their cells are counted from 0.
    Cell { volume: usize, cell: usize },
    /// A character device, counted from 0.
    Device { device: usize },
}

/// A live file: a bound row. Its generation is the row's.
#[derive(Debug, Drop)]
pub struct LiveFile {
    pub kind: Kind,
    /// The mount that it belongs to.
    pub mount: MountId,
    pub backing: Backing,
}

/// What a reference is.
#[derive(Debug, Drop)]
pub enum Role {
    /// An open file's.
    Open,
    /// A mapping's.
    Map,
}

/// A reference of a session to a file.
#[derive(Debug, Drop)]
pub struct Reference {
    pub role: Role,
    pub file: FileId,
    pub kind: Kind,
    /// The mount that the file belongs to.
    pub mount: MountId,
}

/// What stands at a path of a volume that is not mounted.
#[derive(Debug, Drop)]
pub enum KeptNode {
    Dir,
    /// A file on this cell.
    File { cell: usize },
}

/// A volume.
#[derive(Debug, Drop)]
pub struct VolumeState {
    pub name: Name,
    /// The number of pages of each cell.
    pub pages: List<PageCount>,
    /// For each cell, whether no file has it.
    pub spare: List<bool>,
    /// What stands at each path while no mount has the volume, in the order of paths.
    pub kept: List<(Path, KeptNode)>,
}

/// What stands at a path of a rom.
#[derive(Debug, Drop)]
pub enum RomNode {
    Dir,
    /// A file of these bytes.
    File { bytes: Bytes },
}

/// A rom: a read-only image.
#[derive(Debug, Drop)]
pub struct RomImage {
    pub name: Name,
    /// What stands at each path, in the order of paths.
    pub nodes: List<(Path, RomNode)>,
}

/// A character device.
#[derive(Debug, Drop)]
pub struct DeviceState {
    pub name: Name,
    /// Whether a row has it.
    pub is_out: bool,
}

/// The plain namespace. It has no counts.
#[derive(Debug, Drop)]
pub struct Namespace {
    /// The mount of `/`, number 0.
    pub root: Mount,
    /// The other mounts, in the order of mounting.
    pub mounts: List<Mount>,
    /// The tree of each mount, by number; no nodes where no mount has the number.
    pub trees: List<Tree>,
    /// The live file of each row, from the first row on.
    pub live_files: List<Option<LiveFile>>,
    /// The generation of each row, from the first row on: that of its live file, or of its last one.
    pub generations: List<u64>,
    /// The references: for each session, from 1 on, a place for each number from 1 to 32.
    pub references: List<Option<Reference>>,
    /// The working directory of each session, from 1 on.
    pub working_directories: List<Path>,
    pub volumes: List<VolumeState>,
    pub roms: List<RomImage>,
    pub devices: List<DeviceState>,
    /// Whether a Shutdown replied `EIO`.
    pub is_stopped: bool,
}

/// What a row's content begins with.
#[derive(Debug, Drop)]
pub enum Origin {
    /// No bytes, in memory.
    Empty,
    /// The bytes of a rom's file; roms are counted from 0.
    Rom { rom: usize, path: Path },
    /// The bytes of a file that its volume kept on this cell; volumes and their cells are counted from 0.
    Cell { volume: usize, cell: usize },
    /// No bytes, on a cell that was spare.
    NewCell { volume: usize, cell: usize },
    /// What a character device has left and has taken.
    Device { device: usize },
}

/// What becomes of a freed row's content.
#[derive(Debug, Drop)]
pub enum End {
    /// It is dropped.
    Nothing,
    /// It is dropped, and its cell is spare.
    Spare { volume: usize, cell: usize },
    /// It stays on its cell, for the volume's file.
    Kept { volume: usize, cell: usize },
    /// The device goes home.
    Device { device: usize },
}

/// A change of a row that a step makes.
#[derive(Debug, Drop)]
pub enum RowChange {
    /// The free row becomes a file of the row's next generation.
    Bind { file: FileId, origin: Origin },
    /// The row becomes free.
    Free { file: FileId, end: End },
}
