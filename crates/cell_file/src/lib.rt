//! The bytes of one file on a cell: its size, its pages and the block device behind them.
//!
//! A contract sees a `CellFile` as its size, its pages and its device, and, where the device tells its
//! pages, as the file's bytes. A call that the device or memory stops says by its mark how many bytes it
//! moved before; its calls of the device are those that `vfs_model` has for the step.
//! It knows nothing of names, sessions and refusals.
#![tactic(auto)]

mod cell_file;
mod transfer;

pub use cell_file::{CellFile, moved_under};
