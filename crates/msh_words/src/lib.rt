//! The words of a shell line: split at blanks, with quotes taken away.
//!
//! A contract sees `Words` as a list of lists of bytes, and says that they are the words that the
//! line has by its definition, or else which fault it has. It knows nothing of what a word means.
#![tactic(auto)]

mod piece;
mod word_fault;
mod words;

pub use word_fault::WordFault;
pub use words::{Words, split};
