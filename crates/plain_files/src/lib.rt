//! The steps of one file over its plain bytes, and what rows and homes become when files are bound
//! and freed.
//!
//! A contract sees the plain data of `vfs_model` and compares with its definitions: `file_step`,
//! `fits_file` and `change_row`. It has no page cache, and knows no path, mount or session.
#![tactic(auto)]

mod contents;
mod homes;
mod moving;
mod refusal;
mod row;
mod step;

pub use contents::origin_content;
pub use homes::{bind_file, empty_cells, free_file};
pub use row::{fits_row, step_row};
pub use step::{fits_file, step_file};
