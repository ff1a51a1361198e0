//! Which replies a command takes.

ghost use Rattle.std.specs.Prelude.{◌≡◌, ◌≤◌, ◌↔◌, length, IsTrue};
ghost use Rattle.vfs_base.specs.Path.{printed, slashed};
ghost use Rattle.vfs_model.specs.StepForms.{TellsFolder};

use vfs_base::{Name, PATH_MAX, Path, Reply};

/// Whether a command takes the reply to a step that it asks: the printed path of an At has at most
/// `PATH_MAX` bytes.
pub fn fits_reply(reply: &Reply) -> bool
    ensures { IsTrue result ↔ TellsFolder reply.now }
{
    match reply {
        Reply::At { path } => is_short(path),
        _ => true,
    }
}

// The printed path has at most `PATH_MAX` bytes.
fn is_short(path: &Path) -> bool
    ensures { IsTrue result ↔ (length (printed path.now) ≤ 1024) }
{
    path.is_root() || are_short(path.as_names())
}

// The names with a slash before each have at most `PATH_MAX` bytes.
fn are_short(names: &[Name]) -> bool
    ensures { IsTrue result ↔ (length (slashed names.now) ≤ 1024) }
{
    let mut left = PATH_MAX;
    for name in names {
        let len = name.as_bytes().len();
        if left <= len {
            return false;
        }
        left -= len + 1;
    }
    true
}
