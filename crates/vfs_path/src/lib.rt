//! Normal paths: which path a text names from a folder on, and how paths lie under one another.
//!
//! A contract sees a `Path` as its list of names and a text as its bytes, and says that the answer
//! is the path that the definition gives, or else the first fault of the text.
//! It looks at no file and knows no file system.
#![tactic(auto)]

mod ancestry;
mod normal;
mod path_fault;

pub use ancestry::{parent, starts_with};
pub use normal::normalise;
pub use path_fault::PathFault;
