//! The forms of case files: sections, the escapes of their lines, and steps and replies as texts.
//!
//! Nothing is promised but safety: it serves `dfs_tests` alone, which compares a case with what it makes of it.
//! docs/DEVELOPING.md tells the forms. It knows no world, command or program.
#![tactic(auto)]

mod case_fault;
mod difference;
mod escapes;
mod reply_texts;
mod reply_words;
mod sections;
mod step_texts;
mod step_words;

pub use case_fault::CaseFault;
pub use difference::push_difference;
pub use escapes::{push_escaped, push_line, push_shown, push_text};
pub use reply_texts::push_reply;
pub use reply_words::{kind_of, name_of, path_of, reply_of};
pub use sections::{Section, block_of, case_text, push_section, section_of, tell_block, tell_word};
pub use step_texts::push_step;
pub use step_words::{asker, bytes_of, step_of};
