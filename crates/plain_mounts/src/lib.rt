//! Mounting, unmounting and formatting in the plain world, and its end.
//!
//! A contract sees the plain world, and says that a call answers and leaves what the definition of
//! its step does where neither a device nor memory fails; the end is told under each mark. What a
//! mount brings and takes along is made ready first, so that nothing fails half done. It knows no
//! reference by number, and opens no file.
#![tactic(auto)]

mod binding;
mod content;
mod formatting;
mod leaving;
mod mount_steps;
mod mounting;
mod resting;
mod unmounting;

pub use mount_steps::{mkfs_in, mount_in, shut_down, umount_in};
pub use unmounting::may_umount;
