//! How many holders each path has: the paths in use, which a tree of names keeps.
//!
//! A contract sees a `DentryTable` as the numbers by path and the room of a planned move. A dentry stands
//! at each path that has a holder or leads to one, at the root and along the room; so a call takes the time
//! of a walk along its path, and a move takes no longer where much is held below.
//! It knows nothing of what holds a path, and nothing of files.
#![tactic(auto)]

mod dentries;
mod dentry_table;
mod move_plan;
mod room;

pub use dentry_table::DentryTable;
pub use move_plan::MovePlan;
