//! A session of a script, with the blocks that it has shown.

ghost use Rattle.std.specs.Prelude.{◌≡◌, IfOk};
ghost use Rattle.vfs_plain.specs.SessionSteps.{is_asking, is_through, next_step};

use msh_session::Session;
use std::alloc::Global;
use vfs_base::{Bytes, NoMemory, SessionId, Step};

/// A session of a script.
#[derive(Drop)]
pub struct ScriptSession {
    pub k: SessionId,
    pub(crate) session: Session,
    // Whether a command is pending.
    pub(crate) has_pending: bool,
    // How many acts of the script were looked at.
    pub(crate) place: usize,
    pub(crate) text: Bytes,
    ghost pending: { has_pending ≡ is_asking session },
}

impl ScriptSession {
    /// The step that the session takes next: its pending command's, or an exit step.
    pub fn wanted(&self, alloc: Global) -> Result<Option<Step>, NoMemory>
        ensures { IfOk result (λ step. step ≡ next_step self.now.session) }
    {
        if self.has_pending {
            self.session.want(alloc)
        } else {
            Ok(self.session.exit_step())
        }
    }

    /// Whether the session is through with its lines and with its exit.
    pub fn is_through(&self) -> bool
        ensures { result ≡ is_through self.now.session }
    {
        !self.has_pending && self.session.exit_step().is_none()
    }

    /// The blocks that are finished.
    pub fn text(&self) -> &[u8]
        ensures { result.now ≡ self.now.text }
    {
        self.text.as_slice()
    }
}
