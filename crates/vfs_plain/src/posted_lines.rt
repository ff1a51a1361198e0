//! The lines that a script posts to one session.

ghost use Rattle.std.specs.Prelude.{◌≡◌, ◌<◌, ◌≤◌, [], ◌∷◌, length, IfNone, IfSome, OnSome, option_map};
ghost use Rattle.std.specs.Option.{option_to_list};
ghost use Rattle.vfs_model.specs.Deck.{posted_to};
ghost use Rattle.vfs_plain.specs.ScriptSessions.{lines_from};

use vfs_base::{Act, SessionId};

/// The next line for the session at this place of the script or behind it. The place is then behind
/// that line.
pub fn next_line<'a>(acts: &'a [Act], place: &mut usize, k: SessionId) -> Option<&'a [u8]>
    ensures found { IfSome result (λ line. lines_from k acts.now place.old ≡ line.now ∷ lines_from k acts.now place.new) }
    ensures grows { OnSome result ((place.old < place.new) × (place.new ≤ length acts.now)) }
    ensures none { IfNone result ((lines_from k acts.now place.old ≡ []) × (lines_from k acts.now place.new ≡ [])) }
{
    while let Some(act) = acts.get(*place) {
        *place += 1;
        if let Some(line) = line_to(act, k) {
            return Some(line);
        }
    }
    None
}

/// The line that is posted to the session, if it is one of the session's.
pub fn line_to(act: &Act, k: SessionId) -> Option<&[u8]>
    ensures { option_to_list (option_map (λ line. line.now) result) ≡ posted_to k act.now }
{
    match act {
        Act::Post { k: to, text, .. } if *to == k => Some(text.as_slice()),
        _ => None,
    }
}
