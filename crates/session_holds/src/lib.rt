//! What each session holds: its references to files, and its working directory.
//!
//! A contract sees `SessionHolds` as the list of all references, 32 places for each session, and the
//! list of the working directories. `specs/SessionTable.antt` has the words on it.
//! It never looks at what a reference names or where a folder lies, and takes memory only when made.
#![tactic(auto)]

mod session_holds;

pub use session_holds::SessionHolds;
pub use vfs_model::Reference;
