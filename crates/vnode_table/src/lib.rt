//! The vnode slots: numbered places of live files, each with the generation of its file.
//!
//! A contract sees a `VnodeTable` as the list of its 1,024 slots by row, each with a generation, bound
//! or not, linked or not, and a number of references. `specs/SlotTable.antt` has the words on it.
//! It never looks at names, mounts or bytes, and takes memory only when it is made.
#![tactic(auto)]

mod free_files;
mod rows_full;
mod vnode_slot;
mod vnode_table;

pub use rows_full::RowsFull;
pub use vnode_slot::VnodeSlot;
pub use vnode_table::VnodeTable;
