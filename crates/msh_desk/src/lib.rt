//! The state of a session's shell, and what all families of its commands share.
//!
//! A contract sees a `Desk` as the `ShellState` of `vfs_model`: open files with their descriptors, mappings,
//! and the folder in the prompt. Which replies fit a step is told by `specs/FitsReply.antt`.
//! It knows no command, asks no step, and knows no file system.
#![tactic(auto)]

mod desk;
mod fitting;
mod replies;
mod shown_folder;
mod words;

pub use desk::Desk;
pub use fitting::fits_reply;
pub use replies::{ask, done_or_fails, finished, is_absent};
pub use shown_folder::ShownFolder;
pub use words::{copy_word, copy_words, four_words, three_words};
