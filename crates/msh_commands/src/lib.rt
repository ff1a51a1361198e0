//! The commands of the shell: each asks one step at a time, and goes on with the reply.
//!
//! A contract sees a `Command` as what it does for any later replies: a `Talk` of `vfs_model`, which
//! docs/MSH.md tells in words. It keeps no reply, asks no step by itself, and knows
//! no session and no file system.
#![tactic(auto)]

mod command;
mod plain_words;

pub use command::Command;
pub use msh_desk::{Desk, ShownFolder};
pub use vfs_model::Next;
