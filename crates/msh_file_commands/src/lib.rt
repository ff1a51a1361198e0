//! The commands of the shell that work on open files, by their descriptors, and on mappings.
//!
//! A contract sees a `FileCommand` and a `MappingCommand` as what it does for any later replies: a `Talk` of
//! `vfs_model`, which docs/MSH.md tells in words. What it opens and maps is in the `Desk` with the reply. It
//! asks no step by itself, and knows no folder, mount or file system.
#![tactic(auto)]

mod file_words;
mod files;
mod map_part;
mod mapping_words;
mod mappings;

pub use file_words::file_command;
pub use files::FileCommand;
pub use map_part::MapPart;
pub use mapping_words::mapping_command;
pub use mappings::MappingCommand;
