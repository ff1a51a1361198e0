//! The commands of the shell that read and write whole files: `cat`, `echo` and `cp`.
//!
//! A contract sees a `TextCommand` and a `CopyCommand` as what it does for any later replies: a `Talk` of
//! `vfs_model`, which docs/MSH.md tells in words. It has the references of the files that it has opened, and
//! `own` names them. It knows no descriptor, asks no step by itself, and knows no file system.
#![tactic(auto)]

mod cat_reading;
mod copies;
mod copy_end;
mod copy_words;
mod text_words;
mod texts;
mod unwritten;

pub use cat_reading::CatReading;
pub use copies::CopyCommand;
pub use copy_end::CopyEnd;
pub use copy_words::cp;
pub use text_words::{cat, echo};
pub use texts::TextCommand;
pub use unwritten::Unwritten;
