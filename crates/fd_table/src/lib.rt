//! The descriptors of a shell and its open files, which descriptors made by dup share.
//!
//! A contract sees an `FdTable` as `OpenFiles` of `vfs_model`: for each descriptor the number of its
//! open file, and the open files by number. Each call is its definition in `specs/OpenFiles.antt`.
//! It asks no step and knows nothing of paths, mappings or what a file holds.
#![tactic(auto)]

mod exit;
mod fd_fault;
mod fd_table;
mod offset;
mod places;

pub use fd_fault::FdFault;
pub use fd_table::FdTable;
pub use offset::{OFFSET_MAX, moved_offset};
pub use vfs_model::{OpenFile, Whence};
