//! What the sessions of a script show.

ghost use Rattle.std.specs.Prelude.{◌≡◌, ◌++◌, OnOk};
ghost use Rattle.std.specs.List.{flat_map};
ghost use Rattle.vfs_model.specs.Transcript.{session_title};
ghost use Rattle.vfs_plain.specs.ScriptSessions.{has_line};
ghost use Rattle.vfs_plain.specs.Stages.{titled_text};

use crate::posted_lines::line_to;
use crate::script_session::ScriptSession;
use vfs_base::{Act, Bytes, NoMemory, SessionId};

/// Appends the blocks of each session that the script posts to, with its title.
pub fn push_sessions(
    out: &mut Bytes,
    acts: &[Act],
    sessions: &[ScriptSession],
) -> Result<(), NoMemory>
    ensures { OnOk result (out.new ≡ out.old ++ flat_map (titled_text acts.now) sessions.now) }
{
    for session in sessions {
        push_session(out, acts, session)?;
    }
    Ok(())
}

fn push_session(out: &mut Bytes, acts: &[Act], session: &ScriptSession) -> Result<(), NoMemory>
    ensures { OnOk result (out.new ≡ out.old ++ titled_text acts.now session.now) }
{
    if !has_line(acts, session.k) {
        return Ok(());
    }
    push_title(out, session.k)?;
    out.extend_from_slice(session.text())
}

// Appends `[k]` and a line feed.
fn push_title(out: &mut Bytes, k: SessionId) -> Result<(), NoMemory>
    ensures { OnOk result (out.new ≡ out.old ++ session_title k) }
{
    out.extend_from_slice(&[b'[', b'0' + k.number(), b']', b'\n'])
}

// Whether the script posts to the session.
fn has_line(acts: &[Act], k: SessionId) -> bool
    ensures { result ≡ has_line k acts.now }
{
    acts.iter().any(|act| line_to(act, k).is_some())
}
