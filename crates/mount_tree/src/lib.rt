//! The mounts, and which of them covers a path.
//!
//! A contract sees a `MountTree` as the mount of `/` and the list of the others, in the order of
//! mounting. `specs/MountList.antt` has the words on it; numbers and points are never given twice.
//! It never looks at nodes, references or sources, and does not know which mount is in use.
#![tactic(auto)]

mod mount_fault;
mod mount_tree;
mod mounts;

pub use mount_fault::MountFault;
pub use mount_tree::MountTree;
pub use vfs_model::Mount;
