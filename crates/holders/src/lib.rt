//! Who holds what: mounts hold their points, sessions hold files by references, and stand in folders.
//!
//! A contract sees `Holders` as the mounts, the vnode slots by row, the path of each file that has a name and
//! references, and what sessions have. How many holders a path has and whether a mount is in use is read from
//! counts; `specs/Holding.antt` says what they count.
//! It never looks at trees of names, at what a file lies on, or at devices, and makes no error of its own.
#![tactic(auto)]

mod counting;
mod holders;
mod moves;
mod references;

pub use holders::Holders;
pub use moves::RenamePlan;
