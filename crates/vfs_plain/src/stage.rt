//! The plain world and the sessions of a script, between two entries of a schedule.

ghost use Rattle.std.specs.Prelude.{◌≡◌, length};

use crate::script_session::ScriptSession;
use plain_steps::PlainWorld;

/// A script's world and sessions.
#[derive(Drop)]
pub struct Stage {
    pub(crate) world: PlainWorld,
    pub(crate) sessions: Vec<ScriptSession>,
    pub is_over: bool,
    ghost count: { length sessions.items ≡ 8 },
}

impl Stage {
    /// The sessions, by number.
    pub fn sessions(&self) -> &[ScriptSession]
        ensures { result.now ≡ self.now.sessions.items }
    {
        self.sessions.as_slice()
    }
}
