//! A shell's session: its lines one after the other, the block that each shows, and the steps by which it leaves.
//!
//! A contract sees a `Session` as what it does for any later lines and replies: a `SessionRun` of
//! `vfs_model`. docs/MSH.md tells the blocks and the exit in words. It asks no step by itself, and
//! knows no other session and no file system.
#![tactic(auto)]

mod exits;
mod laws;
mod prompt;
mod session;
mod stage;
mod turn;

pub use laws::{
    abandoned_session_leaves, all_exits_are_left, done_session_leaves, exit_step_is_next,
    made_exit_is_followed, new_session_follows, pending_step_is_next, posted_line_is_followed,
    taken_reply_is_followed,
};
pub use session::Session;
