//! The steps of sessions on names and on references, in the plain world.
//!
//! A contract sees the plain world, and says that a call answers and leaves what the definition of
//! its step does where neither a device nor memory fails. It knows no marks, and does not mount.
#![tactic(auto)]

mod listing;
mod moving;
mod naming;
mod opening;
mod references;
mod session_steps;

pub use references::references_of;
pub use session_steps::{
    chdir_in, close_in, cwd_in, home_in, list_in, map_in, mkdir_in, open_in, rename_in, rmdir_in,
    stat_in, unlink_in, unmap_in,
};
