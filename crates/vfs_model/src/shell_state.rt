//! The state of a session's shell: its open files, its mappings, and the folder in its prompt.

use vfs_base::{Bytes, FileId, HoldId, Kind, List, Path, Step};

/// An open file (in POSIX an open file description).
#[derive(Clone, Copy, Debug)]
pub struct OpenFile {
    /// The reference that keeps the file.
    pub hold: HoldId,
    pub file: FileId,
    pub kind: Kind,
    pub reads: bool,
    pub writes: bool,
    /// Whether each write goes to the end of the file.
    pub appends: bool,
    /// The file offset: where the next read or write begins.
    pub place: u64,
}

/// The open files of a shell, by descriptor.
#[derive(Debug, Drop)]
pub struct OpenFiles {
    /// For each descriptor, from 3 on, the number of its open file. Descriptors made by dup share one.
    pub descriptors: List<Option<usize>>,
    /// The open files, by number from 0 on.
    pub files: List<Option<OpenFile>>,
}

/// A mapping: a part of a file that is read and written by offsets in the part.
#[derive(Clone, Copy, Debug)]
pub struct Window {
    /// The reference that keeps the file.
    pub hold: HoldId,
    pub file: FileId,
    /// Where the part begins in the file.
    pub off: u64,
    /// The number of bytes of the part.
    pub len: u64,
    pub writes: bool,
}

/// Where an offset is counted from (POSIX.1-2017, lseek).
#[derive(Clone, Copy, Debug)]
pub enum Whence {
    /// The beginning of the file.
    Set,
    /// The place of the open file.
    Cur,
    /// The end of the file, which has so many bytes.
    End { size: u64 },
}

/// The state of a session's shell.
#[derive(Debug, Drop)]
pub struct ShellState {
    pub open_files: OpenFiles,
    /// The mappings, by number from 1 on.
    pub mappings: List<Option<Window>>,
    /// The folder in the prompt: that of the session's last At.
    pub shown: Path,
}

/// What a command does next.
#[derive(Debug, Drop)]
pub enum Next {
    /// It asks a step, and goes on with its reply.
    Ask { step: Step },
    /// It is finished, and this is its text.
    Finished { text: Bytes },
}
