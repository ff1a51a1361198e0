use msh_commands::Command;
use vfs_base::Bytes;

/// Where a session stands between two calls.
#[derive(Drop)]
pub enum Stage {
    /// Nothing is pending.
    Ready,
    /// A command asks a step. Its block begins with this head.
    Pending { head: Bytes, command: Command },
    /// A command was given up.
    GivenUp { command: Command },
}
