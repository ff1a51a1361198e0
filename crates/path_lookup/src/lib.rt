//! What stands at a path: the mount that covers it, why a walk to it is refused, and the node there.
//!
//! A contract sees the mounts and the tree of each as a namespace that has nothing else, and compares a
//! `Spot` with the definitions of `vfs_model`. One walk finds all of it: each folder above the mount's point
//! stands, as in every consistent namespace.
//! It knows no references, files and sources, and changes nothing.
#![tactic(auto)]

mod spot;

pub use spot::{Spot, spot_at};
