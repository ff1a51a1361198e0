//! The commands of the shell that see and change the tree: its folders and names, mounts and devices.
//!
//! A contract sees a `FolderCommand` and a `MountCommand` as what it does for any later replies: a `Talk` of
//! `vfs_model`, which docs/MSH.md tells in words. It keeps no reply, asks no step by itself, and knows no
//! descriptor, mapping or file system.
#![tactic(auto)]

mod folder_words;
mod folders;
mod listing;
mod mount_words;
mod mounts;

pub use folder_words::folder_command;
pub use folders::FolderCommand;
pub use listing::Listing;
pub use mount_words::mount_command;
pub use mounts::MountCommand;
