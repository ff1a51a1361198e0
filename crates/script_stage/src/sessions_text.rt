//! What the sessions of a script show.

ghost use Rattle.std.specs.Prelude.{◌≡◌, ◌++◌, ℕ, [], List, Some, OnOk, length};
ghost use Rattle.vfs_model.specs.ScriptRun.{RunState, state_after};
ghost use Rattle.vfs_model.specs.Transcript.{session_title, sessions_text};
ghost use Rattle.script_stage.specs.Scenes.{Script};
ghost use Rattle.script_stage.specs.Standing.{ClosesAt};
ghost use Rattle.script_stage.specs.Texts.{has_line, is_line_of, titled_text, titled_texts};

use crate::closing::session_at;
use crate::stage::Stage;
use crate::stage_session::StageSession;
use step_world::StepWorld;
use vfs_base::{Act, Bytes, NoMemory, SessionId};

impl<W: StepWorld> Stage<W> {
    /// Appends what each session shows that the script posts to, with its title. After an `Err` a front of
    /// it may stand there.
    pub fn push_sessions(&self, out: &mut Bytes, acts: &[Act]) -> Result<(), NoMemory>
        ensures { OnOk result ((script : Script) (s : RunState) → script.deck.acts ≡ acts.now →
            ClosesAt self.now script [] → state_after script.deck script.describe self.now.schedule ≡ Some s →
            out.new ≡ out.old ++ sessions_text script.deck s) }
    {
        push_all(out, acts, self.sessions.as_slice())
    }
}

// Appends what these sessions show, all of them and by number.
fn push_all(out: &mut Bytes, acts: &[Act], sessions: &[StageSession]) -> Result<(), NoMemory>
    requires { length sessions.now ≡ 8 }
    ensures { OnOk result (out.new ≡ out.old ++ titled_texts 1 acts.now sessions.now) }
{
    for (place, session) in sessions.iter().enumerate() {
        push_session(out, acts, session_at(place as u8), session.text())?;
    }
    Ok(())
}

// Appends what a session shows, if the script posts to it.
fn push_session(out: &mut Bytes, acts: &[Act], k: SessionId, text: &[u8]) -> Result<(), NoMemory>
    ensures { OnOk result (out.new ≡ out.old ++ titled_text k acts.now text.now) }
{
    if !has_line(acts, k) {
        return Ok(());
    }
    push_title(out, k)?;
    out.extend_from_slice(text)
}

// Appends `[k]` and a line feed.
fn push_title(out: &mut Bytes, k: SessionId) -> Result<(), NoMemory>
    ensures { OnOk result (out.new ≡ out.old ++ session_title k) }
{
    out.extend_from_slice(&[b'[', b'0' + k.number(), b']', b'\n'])
}

// Whether the script posts to the session.
fn has_line(acts: &[Act], k: SessionId) -> bool
    ensures { result ≡ has_line k acts.now }
{
    acts.iter().any(|act| is_line_of(act, k))
}

// Whether the act posts to the session.
fn is_line_of(act: &Act, k: SessionId) -> bool
    ensures { result ≡ is_line_of k act.now }
{
    match act {
        Act::Post { k: to, .. } => *to == k,
        Act::Events { .. } => false,
    }
}
