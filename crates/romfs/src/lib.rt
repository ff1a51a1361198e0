//! Roms: read-only trees of folders and files, and the manifests that describe them.
//!
//! A contract sees a `RomTree` as the list of its paths in byte order, each with the bytes of a
//! file, or none for a folder. What a manifest means is `manifest_tree` of `vfs_model`.
//! It knows nothing of mounts, scripts or devices.
#![tactic(auto)]

mod draft;
mod field;
mod manifest;
mod rom_tree;

pub use draft::Draft;
pub use manifest::{ManifestFault, read_manifest, write_manifest};
pub use rom_tree::{RomNode, RomTree};
