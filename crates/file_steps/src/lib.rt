//! What a step of one file is refused with, how many bytes it moves, and how bytes in memory change by it.
//!
//! A contract sees a row's shape and plain bytes, and compares with `vfs_model`: `shape_refusals`,
//! `bytes_count`, `move_bytes` and `written_at`. It knows no device, no page cache and no mark.
#![tactic(auto)]

mod moving;
mod refusal;
mod shape;
mod writing;

pub use moving::{behind, bytes_count, copied, front, move_bytes};
pub use refusal::{is_cell, refusals};
pub use shape::RowShape;
