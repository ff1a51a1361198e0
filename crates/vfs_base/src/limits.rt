//! The limits of the file system and of its shell.

/// Bytes in a page of a device or of the page cache.
pub const PAGE_SIZE: u64 = 4096;

/// The greatest number of bytes in a name (`NAME_MAX` of POSIX.1-2017, limits.h).
pub const NAME_MAX: usize = 255;

/// The greatest number of bytes in a printed path that a caller may ask for (`PATH_MAX`).
pub const PATH_MAX: usize = 1024;

/// The greatest offset in a file, in bytes.
pub const OFF_MAX: u64 = 0x7fff_ffff_ffff_ffff;

/// Sessions, numbered from 1. All are present from the start.
pub const SESSIONS: u8 = 8;

/// The least descriptor of a session.
pub const FIRST_DESCRIPTOR: u64 = 3;

/// Descriptors of a session, numbered from `FIRST_DESCRIPTOR`.
pub const DESCRIPTORS: usize = 16;

/// Mappings of a session, numbered from 1.
pub const WINDOWS: usize = 8;

/// References of a session, of open files and of mappings together, numbered from 1.
pub const HOLDS: usize = 32;

/// Mounts, numbered from 0; the least free number is taken first.
pub const MOUNTS: usize = 16;

/// Vnode slots, numbered from 1; the least free number is taken first.
pub const ROWS: u16 = 1024;

/// Nodes of a file system beside its root.
pub const NODES: usize = 4096;

/// Resident pages of one cell file.
pub const RESIDENT_PAGES: usize = 32;

/// Resident pages of one cell file that reclaim leaves.
pub const RECLAIM_TARGET: usize = 8;

/// The greatest number of bytes in a file of a tmp mount.
pub const TMP_FILE_MAX: u64 = 4_194_304;

/// The greatest number of pages of one cell; the least is 1.
pub const CELL_PAGES_MAX: u16 = 1024;

/// The greatest number of cells of one volume.
pub const VOLUME_CELLS_MAX: usize = 1024;

/// The greatest number of words in a line of the shell.
pub const WORDS_MAX: usize = 10;

/// The greatest number of bytes in a line, without its line feed.
pub const LINE_MAX: usize = 1024;

/// The greatest number of bytes in a script.
pub const DECK_MAX: u64 = 16_777_216;

/// The greatest number of bytes that one `write` command writes.
pub const WRITE_MAX: u64 = 1_048_576;

/// The greatest number of bytes that one `read` or `mload` command reads.
pub const READ_MAX: u64 = 65_536;
