//! The types that every layer speaks: paths, errors, steps and their replies, scripts, schedules.
//!
//! A contract sees plain data: lists, numbers, records and variants. A number that has a range is a
//! type of its own, whose values are in it.
//! It knows no rule of the file system; docs/GLOSSARY.md has the terms.
#![tactic(auto)]

mod calls;
mod copies;
mod deck;
mod describe;
mod entry;
mod errno;
mod flags;
mod ids;
mod kinds;
mod limits;
mod list;
mod name;
mod no_memory;
mod path;
mod reply;
mod step;

pub use calls::Calls;
pub use copies::{copy_flat, copy_flat_step, copy_reply, copy_step};
pub use deck::{Act, Deck, RomText};
pub use describe::{CellNode, CharsShape, Counts, Describe, PageCount, Record, VolumeShape};
pub use entry::{Entry, Mark, Who, push_mark, push_number, push_who};
pub use errno::Errno;
pub use flags::OpenFlags;
pub use ids::{FileId, Generation, HoldId, MountId, RowId, SessionId};
pub use kinds::{DeviceClass, FsType, Kind, NodeKind};
pub use limits::{
    CELL_PAGES_MAX, DECK_MAX, DESCRIPTORS, FIRST_DESCRIPTOR, HOLDS, LINE_MAX, MOUNTS, NAME_MAX,
    NODES, OFF_MAX, PAGE_SIZE, PATH_MAX, READ_MAX, RECLAIM_TARGET, RESIDENT_PAGES, ROWS, SESSIONS,
    TMP_FILE_MAX, VOLUME_CELLS_MAX, WINDOWS, WORDS_MAX, WRITE_MAX,
};
pub use list::{Bytes, List, copy_bytes};
pub use name::Name;
pub use no_memory::NoMemory;
pub use path::{Path, push_printed};
pub use reply::{DeviceLine, HolderLine, HolderPlace, ListEntry, MountLine, Reply};
pub use step::Step;
