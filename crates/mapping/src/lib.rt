//! The mappings of a shell: up to eight parts of files, each read and written by offsets in the part.
//!
//! A contract sees `Windows` as the list of its eight places, each with a mapping or free. What may
//! be mapped and which bytes a mapping reaches is told in `vfs_model`, `specs/Mappings.antt`.
//! It never reads or writes a byte, and knows nothing of descriptors, paths or names.
#![tactic(auto)]

mod map_fault;
mod request;
mod windows;

pub use map_fault::MapFault;
pub use request::may_map;
pub use vfs_model::Window;
pub use windows::Windows;
