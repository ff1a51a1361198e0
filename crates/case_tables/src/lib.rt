//! Cases of the crates below the program: dialogues of commands, and tables of single calls.
//!
//! Each is made by public calls of its crate from what the case gives, as a text that is to be the case's own.
//! docs/DEVELOPING.md tells the forms. Nothing is promised but safety; it knows no world and no whole run.
#![tactic(auto)]

mod dialogues;
mod small_calls;
mod tables;

pub use dialogues::play_dialogue;
pub use tables::play_table;
