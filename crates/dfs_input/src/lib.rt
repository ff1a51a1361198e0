//! What is read of an input: its lines, each as soon as it came whole, or all of its bytes.
//!
//! A contract sees what the source has left before and after, and the lines or the script that the
//! bytes are by the definitions of `vfs_model`. It knows nothing of what a line asks for.
#![tactic(auto)]

mod input;
mod line_reader;

pub use input::{InputFault, read_all};
pub use line_reader::{LineReader, ReadStop};
