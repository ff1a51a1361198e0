//! One row: the file that is in it, and the steps of that file.
//!
//! A contract sees a `Row`: its generation, and what is in it, bytes in memory, a rom's, a file on a cell or a
//! character device. Where the device tells what it holds, so is the file known, and else its shape alone,
//! which decides what is refused. Each step is the file step of `vfs_model` under the mark that it answers.
//! It knows nothing of names, sessions and other rows.
#![tactic(auto)]

mod cell;
mod device;
mod memory;
mod outcome;
mod row_body;
mod row_state;

pub use row_body::RowBody;
pub use row_state::RowState;
