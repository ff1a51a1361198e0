//! The texts and words of the shell's commands: what they show, and what their words stand for.
//!
//! A contract sees lists of bytes, and says that each is the text or the meaning that its
//! definition gives. It asks no step, and knows nothing of a shell's state.
#![tactic(auto)]

mod errors;
mod flags;
mod lists;
mod numbers;
mod shown;

pub use errors::{error_text, push_subject_error, subject_error_text, unknown_text, usage_text};
pub use flags::{is_for_writing, read_flags};
pub use lists::{devices_text, holders_text, mounts_text};
pub use numbers::{is_word, read_number, read_offset};
pub use shown::{
    bytes_text, descriptor_text, folder_text, help_text, line_text, listing_head, mapping_text,
    number_text, push_column, push_size_column, row_text, size_stat_text, stat_text,
};
